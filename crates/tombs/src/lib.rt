// What ends an envelope: the call tomb.
#![tactic(auto)]

ghost use Rattle.std.specs.Prelude.{◌≡◌, ◌+◌, ◌*◌, ◌<◌, ◌≤◌, length};
ghost use Rattle.table.specs.Rows.{held};
ghost use Rattle.rows.specs.Rows.{action_width, own_width, carried_width};
ghost use Rattle.model.specs.Calls.{tomb};
ghost use Rattle.model.specs.Tombs.{carried_at, own_at, turned as turned_of};
ghost use Rattle.model.specs.Lent.{Does, actions_lent};
ghost use Rattle.tombstones.specs.Tombstones.{Room};
ghost use Rattle.answers.specs.declared.Said.TheVariants.{Done};
ghost use Rattle.answers.specs.Says.{says};
ghost use Rattle.tombs.specs.Tombs.{Finds, Ends, EndsBy, held_lent, own_lent, tomb_lent};

use answers::{Said, put_courier};
use courier_core::{ContactId, Refusal};
use holdings::{carried_of_tag, insert_by_slot, known, own_of_tag};
use rows::{
    ACTION_WIDTH, CARRIED_AREA, CARRIED_WIDTH, CONTACT_AREA, Carried, Device, OWN_AREA, OWN_WIDTH,
    Own, Row, Tombstone,
};
use table::Table;
use tombstones::{Storing, Tomb, all_rows_used, make_room, store_choice, store_tombstone};

// (Where a table is written, its area and its count stand apart: the call is lent the area, and the device has the count.)

// ---- what a tomb finds

// Where the row with the tag stands, if the secret is right for it; or a wrong secret; or no such tag.
// (The model has these four cases. A `Result` of an `Option` would take two more enums: one for the table that the place is in, one for a wrong secret.)
#[derive(Drop)]
pub enum Found {
    CarriedAt(usize),
    OwnAt(usize),
    WrongSecret,
    UnknownTag,
}

// What a tomb finds. A carried row goes first: a wrong secret there is malformed, even if an own row would match.
// An own row has no commitment but that of its secret.
fn find(own: Table<OWN_WIDTH>, carried: Table<CARRIED_WIDTH>, tomb: Tomb) -> Found
    ensures { Finds own.entry carried.entry tomb.tag tomb.s result }
{
    match carried_of_tag(carried, tomb.tag) {
        Some(i) => {
            let row = Carried::read(carried.area, i * CARRIED_WIDTH);
            if courier::tombstone_matches(row.c, tomb.s) {
                Found::CarriedAt(i)
            } else {
                Found::WrongSecret
            }
        }
        None => match own_of_tag(own, tomb.tag) {
            Some(i) => {
                let row = Own::read(own.area, i * OWN_WIDTH);
                if courier::tombstone_matches(courier::commitment(row.s), tomb.s) {
                    Found::OwnAt(i)
                } else {
                    Found::WrongSecret
                }
            }
            None => Found::UnknownTag,
        },
    }
}

// The tombstone of a carried row whose envelope ends: it retains its slot and expiry.
#[tactic(auto, unfolding(model::specs::Tombs::turned))]
fn tombstone_of(row: Carried, tomb: Tomb) -> Tombstone
    ensures { result ≡ turned_of row tomb.tag tomb.s }
{
    tomb.tombstone(row.slot, row.expiry_min)
}

// ---- tomb

// Ends the carried row at i: room is made among the tombstones stored before, and then its own takes its place in order of slots. It keeps the row's slot.
// (Not by `store_tombstone`: that takes the next slot, and stores nothing where the tag has a tombstone. A row that turns is never the one that goes.)
#[tactic(auto, using(holdings::proofs::SearchLaws::row_within))]
fn end_carried(
    device: &mut Device,
    i: usize,
    tomb: Tomb,
    carried: &mut [u8],
    tombstones: &mut [u8],
    actions: &mut [u8],
) -> Result<Said, Refusal>
    requires { (i < held (length carried.old) carried_width device.old.carried) × (2 * action_width ≤ length actions.old) }
    ensures { Ends tomb.tag tomb.s (carried_at i) result (held_lent device.old carried.old tombstones.old)
        (held_lent device.new carried.new tombstones.new) (actions_lent actions.old) (actions_lent actions.new) }
{
    let table = Table {
        area: tombstones,
        count: device.tombstones,
    };
    if all_rows_used(table) {
        return Err(Refusal::NoTombstoneRow);
    }
    let row = Carried::read(carried, i * CARRIED_WIDTH);
    device.carried = Carried::remove(carried, device.carried, i);
    let listed = make_room(device, tombstones, actions, 0);
    device.tombstones = insert_by_slot(tombstones, device.tombstones, tombstone_of(row, tomb));
    put_courier(actions, ACTION_WIDTH * listed, row.slot);
    Ok(Said::Done(listed + 1))
}

// Ends the own row at i, and stores its tombstone as it was chosen; answers how many actions are listed.
#[tactic(auto, using(holdings::proofs::SearchLaws::row_within))]
fn end_row(
    device: &mut Device,
    i: usize,
    how: Storing,
    tomb: Tomb,
    own: &mut [u8],
    tombstones: &mut [u8],
    actions: &mut [u8],
) -> usize
    requires { (i < held (length own.old) own_width device.old.own) × (Room how device.old tombstones.old × (3 * action_width ≤ length actions.old)) }
    ensures { EndsBy how i tomb.tag tomb.s (Ok (Done result)) (own_lent device.old own.old tombstones.old)
        (own_lent device.new own.new tombstones.new) (actions_lent actions.old) (actions_lent actions.new) }
{
    let row = Own::read(own, i * OWN_WIDTH);
    answers::put_queued(actions, 0, row.contact, row.msgno);
    device.own = Own::remove(own, device.own, i);
    1 + store_tombstone(
        device,
        how,
        tomb,
        row.expiry_min,
        tombstones,
        actions,
        ACTION_WIDTH,
    )
}

// Ends the own row at i, if its tombstone can be stored.
fn end_own(
    device: &mut Device,
    i: usize,
    tomb: Tomb,
    own: &mut [u8],
    tombstones: &mut [u8],
    actions: &mut [u8],
) -> Result<Said, Refusal>
    requires { (i < held (length own.old) own_width device.old.own) × (3 * action_width ≤ length actions.old) }
    ensures { Ends tomb.tag tomb.s (own_at i) result (own_lent device.old own.old tombstones.old)
        (own_lent device.new own.new tombstones.new) (actions_lent actions.old) (actions_lent actions.new) }
{
    let how = store_choice(*device, tomb.tag, tombstones)?;
    Ok(Said::Done(end_row(device, i, how, tomb, own, tombstones, actions)))
}

// A tomb: the carried row with its tag becomes a tombstone, or else the own row ends; an unknown tag changes nothing.
// (It is lent what the exported function of crate goosetable is lent, each area and each value by itself.)
pub fn receive_tomb(
    device: &mut Device,
    peer: ContactId,
    tag: [u8; 16],
    s: [u8; 16],
    contacts: &[u8; CONTACT_AREA],
    own: &mut [u8; OWN_AREA],
    carried: &mut [u8; CARRIED_AREA],
    tombstones: &mut [u8],
    actions: &mut [u8],
) -> Result<Said, Refusal>
    ensures { Does says (tomb (length actions.old) peer tag s) result
        (tomb_lent device.old contacts.now own.old carried.old tombstones.old)
        (tomb_lent device.new contacts.now own.new carried.new tombstones.new)
        (actions_lent actions.old) (actions_lent actions.new) }
{
    if answers::short_actions(actions.len(), tombstones.len()) {
        return Err(Refusal::ShortArea);
    }
    let contacts = Table {
        area: contacts,
        count: device.contacts,
    };
    if !known(contacts, peer) {
        return Err(Refusal::UnknownContact);
    }
    let tomb = Tomb { tag, s };
    let own_rows = Table {
        area: own,
        count: device.own,
    };
    let carried_rows = Table {
        area: carried,
        count: device.carried,
    };
    match find(own_rows, carried_rows, tomb) {
        Found::CarriedAt(i) => end_carried(device, i, tomb, carried, tombstones, actions),
        Found::OwnAt(i) => end_own(device, i, tomb, own, tombstones, actions),
        Found::WrongSecret => Ok(Said::Malformed),
        Found::UnknownTag => Ok(Said::Done(0)),
    }
}
