// What follows local opening: the calls report opened and report failed.
#![tactic(auto)]

ghost use Rattle.std.specs.Prelude.{length};
ghost use Rattle.model.specs.Calls.{opened, failed};
ghost use Rattle.model.specs.Lent.{Does, no_answers, answers_lent};
ghost use Rattle.answers.specs.Says.{says};
ghost use Rattle.reports.specs.Reports.{opened_lent, failed_lent};

use answers::Said;
use courier_core::{ContactId, Refusal};
use holdings::{is_bad, known, lifetime_end};
use rows::{BAD_TAG_WIDTH, BadTag, CONTACT_AREA, Device, Row};
use table::Table;
use tombstones::{Tomb, store_choice, store_tombstone};

// An envelope was opened: its tombstone is stored, and its tomb answered, one row of the reply area, also where the tag has a tombstone.
// The tombstone expires with the envelope, or when the lifetime from now ends, if that is sooner.
// (It is lent what the exported function of crate goosetable is lent, each area and each value by itself.)
pub fn report_opened(
    device: &mut Device,
    peer: ContactId,
    tag: [u8; 16],
    s: [u8; 16],
    expiry: u32,
    contacts: &[u8; CONTACT_AREA],
    tombstones: &mut [u8],
    replies: &mut [u8],
    actions: &mut [u8],
) -> Result<Said, Refusal>
    ensures { Does says (opened (length replies.old) (length actions.old) peer tag s expiry) result
        (opened_lent device.old contacts.now tombstones.old) (opened_lent device.new contacts.now tombstones.new)
        (answers_lent replies.old actions.old) (answers_lent replies.new actions.new) }
{
    if answers::short_replies(replies.len())
        || answers::short_actions(actions.len(), tombstones.len())
    {
        return Err(Refusal::ShortArea);
    }
    let contacts = Table {
        area: contacts,
        count: device.contacts,
    };
    if !known(contacts, peer) {
        return Err(Refusal::UnknownContact);
    }
    let how = store_choice(*device, tag, tombstones)?;
    answers::put_tomb(replies, 0, tag, s);
    let until = expiry.min(lifetime_end(device.now_s, device.courier));
    Ok(Said::Done(store_tombstone(device, how, Tomb { tag, s }, until, tombstones, actions, 0)))
}

// An envelope could not be opened: its tag is bad for the peer from now on, and it is malformed.
pub fn report_failed(
    device: &mut Device,
    peer: ContactId,
    tag: [u8; 16],
    contacts: &[u8; CONTACT_AREA],
    bad_tags: &mut [u8],
) -> Result<Said, Refusal>
    ensures { Does says (failed peer tag) result (failed_lent device.old contacts.now bad_tags.old)
        (failed_lent device.new contacts.now bad_tags.new) no_answers no_answers }
{
    let contacts = Table {
        area: contacts,
        count: device.contacts,
    };
    if !known(contacts, peer) {
        return Err(Refusal::UnknownContact);
    }
    let table = Table::<BAD_TAG_WIDTH> {
        area: bad_tags,
        count: device.bad_tags,
    };
    if is_bad(table, peer, tag) {
        return Ok(Said::Malformed);
    }
    if bad_tags.len() / BAD_TAG_WIDTH <= device.bad_tags {
        return Err(Refusal::NoBadTagRow);
    }
    device.bad_tags = BadTag::push(bad_tags, device.bad_tags, BadTag { peer, tag });
    Ok(Said::Malformed)
}
