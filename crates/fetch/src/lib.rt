// Fetch: the envelope with a tag, and the part of the cell area that is its ciphertext.
#![tactic(auto)]

ghost use Rattle.std.specs.Prelude.{◌≡◌, ◌+◌, ◌≤◌, length};
ghost use Rattle.octets.specs.Bytes.{part};
ghost use Rattle.rows.specs.Rows.{own_width, carried_width, reply_width, own_of, carried_of};
ghost use Rattle.model.specs.Calls.{fetch as fetch_call};
ghost use Rattle.model.specs.Exchange.{own_envelope_of, carried_envelope_of};
ghost use Rattle.model.specs.Lent.{Does, replies_lent};
ghost use Rattle.fetch.specs.Fetch.{Given, fetched_said, fetch_says, fetch_in};

use courier_core::{ContactId, Refusal};
use holdings::cells::cell_part;
use holdings::{carried_of_tag, known, own_for_others};
use rows::{
    CARRIED_AREA, CARRIED_WIDTH, CONTACT_AREA, Carried, Device, OWN_AREA, OWN_WIDTH, Own, Row,
};
use table::Table;

// ---- its header, in a reply row

// Writes the own envelope at a place to the reply area, and answers its ciphertext.
fn give_own<'c>(own: &[u8], at: usize, cells: &'c [u8], replies: &mut [u8]) -> &'c [u8]
    requires { (at + own_width ≤ length own.now) × (reply_width ≤ length replies.old) }
    ensures { Given (own_envelope_of (own_of (part own.now at own_width))) cells.now replies.old result.now replies.new }
{
    let row = Own::read(own, at);
    answers::put_envelope(
        replies,
        0,
        answers::own_cell(row.cell),
        answers::own_header(row),
    );
    cell_part(cells, row.cell, row.len)
}

// The same, of a carried envelope. (Two functions: one would be given the header, the cell as a reply says it, the row's cell and its length,
// each made by another function or read from another type at the two calls.)
fn give_carried<'c>(carried: &[u8], at: usize, cells: &'c [u8], replies: &mut [u8]) -> &'c [u8]
    requires { (at + carried_width ≤ length carried.now) × (reply_width ≤ length replies.old) }
    ensures { Given (carried_envelope_of (carried_of (part carried.now at carried_width))) cells.now replies.old result.now replies.new }
{
    let row = Carried::read(carried, at);
    answers::put_envelope(
        replies,
        0,
        answers::carried_cell(row.cell),
        answers::carried_header(row),
    );
    cell_part(cells, row.cell, row.len)
}

// ---- the call

// Answers the part of a cell area that is the ciphertext of the first envelope with the tag: own rows that are not for the peer, then
// carried rows; or that there is none. Its header goes to the reply area.
// (The call is lent what the exported function of crate goosetable is lent: each area by itself.)
pub fn fetch<'c>(
    device: Device,
    peer: ContactId,
    tag: [u8; 16],
    contacts: &[u8; CONTACT_AREA],
    own: &[u8; OWN_AREA],
    carried: &[u8; CARRIED_AREA],
    own_cells: &'c [u8],
    carried_cells: &'c [u8],
    replies: &mut [u8],
) -> Result<Option<&'c [u8]>, Refusal>
    ensures { Does (fetch_says own_cells.now carried_cells.now) (fetch_call (length replies.old) peer tag)
        (fetched_said result)
        (fetch_in device contacts.now own.now carried.now own_cells.now carried_cells.now)
        (fetch_in device contacts.now own.now carried.now own_cells.now carried_cells.now)
        (replies_lent replies.old) (replies_lent replies.new) }
{
    if answers::short_replies(replies.len()) {
        return Err(Refusal::ShortArea);
    }
    let contacts = Table {
        area: contacts,
        count: device.contacts,
    };
    if !known(contacts, peer) {
        return Err(Refusal::UnknownContact);
    }
    let own_rows = Table {
        area: own,
        count: device.own,
    };
    let carried_rows = Table {
        area: carried,
        count: device.carried,
    };
    match own_for_others(own_rows, peer, tag) {
        Some(i) => Ok(Some(give_own(own, i * OWN_WIDTH, own_cells, replies))),
        None => match carried_of_tag(carried_rows, tag) {
            Some(i) => {
                let at = i * CARRIED_WIDTH;
                Ok(Some(give_carried(carried, at, carried_cells, replies)))
            }
            None => Ok(None),
        },
    }
}
