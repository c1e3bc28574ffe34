// Own envelopes: `own_envelope`, the courier copies of a message that the host has queued.
#![tactic(auto)]

ghost use Rattle.std.specs.Prelude.{◌≡◌, ◌+◌, ◌*◌, ◌<◌, ◌≤◌, length};
ghost use Rattle.table.specs.Lists.{any};
ghost use Rattle.table.specs.Rows.{held};
ghost use Rattle.table.specs.Codec.{table_of, TableNow};
ghost use Rattle.table.specs.Tables.{rows_in};
ghost use Rattle.rows.specs.Rows.{own_width, own_codec, contact_codec};
ghost use Rattle.model.specs.Calls.{add_own};
ghost use Rattle.model.specs.Contacts.{added_before};
ghost use Rattle.model.specs.Own.{is_message, own_length, none_made, stands_after, insert_own};
ghost use Rattle.model.specs.Lent.{Does, no_answers};
ghost use Rattle.own_envelope.specs.OwnEnvelope.{own_says, lent_own, made_own, own_place};

use chain::Dir;
use courier_core::{ContactId, Refusal};
use rows::{CONTACT_AREA, CONTACT_WIDTH, Device, MAX_OWN, OWN_AREA, OWN_WIDTH, Own, Row};
use state::CELL;
use table::Table;

// ---- the tests

// Is the message number already there?
fn has_message(own: Table<OWN_WIDTH>, id: ContactId, msgno: u32) -> bool
    ensures { result ≡ any (is_message id msgno) (rows_in own_codec own.entry) }
{
    own.any(|row| ContactId(octets::get_u64(row, 0)) == id
        && octets::get_u32(row, Own::MSGNO) == msgno)
}

// Is the length, less 16, an inner length?
#[tactic(auto, unfolding(model::specs::Own::own_length))]
fn own_length(len: usize) -> bool
    ensures { result ≡ own_length len }
{
    chain::inner_of(len).is_some_and(|n| chain::is_bucket(n))
}

// Is no envelope made: inner length above COURIER_INNER_MAX, or 256 own rows there?
#[tactic(auto, using(table::proofs::TableLaws::length_table), unfolding(model::specs::Own::none_made))]
fn none_made(own: Table<OWN_WIDTH>, len: usize) -> bool
    ensures { result ≡ none_made (rows_in own_codec own.entry) len }
{
    CELL < len || MAX_OWN <= own.len()
}

// ---- the row

// Where a contact stands from `at` on, or how many there are: never before the contact's first place.
// (A loop: by `find` and `unwrap_or` a row for the last of 256 contacts took 3.9 µs in place of 3.7, 1.09 of the source in place of 1.03.)
fn place_from(contacts: Table<CONTACT_WIDTH>, at: usize, id: ContactId) -> usize
    ensures { added_before (rows_in contact_codec contacts.entry) id ≤ result }
{
    let n = contacts.len();
    for k in at..n {
        if octets::get_u64(contacts.area, k * CONTACT_WIDTH) == id.0 {
            return k;
        }
    }
    n
}

// Does a row stand after one of this contact and message number? `mine` contacts were added before that one.
// The row's contact stands at `place` or before it: all contacts are searched only where that is past `mine`.
fn stands_after(
    contacts: Table<CONTACT_WIDTH>,
    mine: usize,
    place: usize,
    id: ContactId,
    msgno: u32,
    row: Own,
) -> bool
    requires { (mine ≡ added_before (rows_in contact_codec contacts) id) × (added_before (rows_in contact_codec contacts) row.contact ≤ place) }
    ensures { result ≡ stands_after (rows_in contact_codec contacts.entry) id msgno row }
{
    if row.contact == id {
        return msgno < row.msgno;
    }
    mine < place && mine < holdings::added_before(contacts, row.contact)
}

// Where a new row goes: own rows stand by contact as added and message number.
// So the search for a row's contact begins where that for the row before it ended.
// (A loop and no `position`: that place goes on from row to row.)
fn own_place(
    contacts: Table<CONTACT_WIDTH>,
    own: Table<OWN_WIDTH>,
    id: ContactId,
    msgno: u32,
) -> usize
    ensures { result ≡ own_place (rows_in contact_codec contacts.entry) id msgno (rows_in own_codec own.entry) }
{
    let mine = holdings::added_before(contacts, id);
    let n = own.len();
    let mut place = 0;
    for i in 0..n {
        let row = Own::read(own.area, i * OWN_WIDTH);
        place = place_from(contacts, place, row.contact);
        if stands_after(contacts, mine, place, id, msgno, row) {
            return i;
        }
    }
    n
}

// Puts a row in at its place; answers how many there are.
// (Area and count, and no Table: the area changes, and a Table is lent to be read.)
fn insert_own(contacts: Table<CONTACT_WIDTH>, own: &mut [u8], count: usize, row: Own) -> usize
    requires { held (length own.old) own_width count * own_width + own_width ≤ length own.old }
    ensures { TableNow own_codec own.old (insert_own (rows_in contact_codec contacts.entry) row (table_of own_codec count own.old)) result own.new }
{
    let table = Table { area: own, count };
    let i = own_place(contacts, table, row.contact, row.msgno);
    Own::insert(own, count, i, row)
}

// (Beside the device, what the row has that is not the device's: in a struct it would be the row again.)
fn new_own(
    device: &Device,
    id: ContactId,
    msgno: u32,
    tag: [u8; 16],
    s: [u8; 16],
    len: usize,
    cell: usize,
) -> Own
    requires { (len < 65536) × (cell < 65536) }
    ensures { result ≡ made_own device.now id msgno tag s len cell }
{
    Own {
        contact: id,
        msgno,
        tag,
        s,
        expiry_min: holdings::lifetime_end(device.now_s, device.courier),
        copies: device.courier.copies,
        renewed: 0,
        len: len as u16,
        cell: cell as u16,
    }
}

// ---- the call

// An own envelope of a queued message: its ciphertext goes to the first free cell, its row among the own rows. Answers the row, or none where no
// envelope is made.
// (The call is lent what the exported function of crate goosetable is lent: each area by itself.)
pub fn own_envelope(
    device: &mut Device,
    id: ContactId,
    msgno: u32,
    key: [u8; 32],
    dir: Dir,
    generation: u8,
    idx: u32,
    s: [u8; 16],
    ct: &[u8],
    contacts: &[u8; CONTACT_AREA],
    own: &mut [u8; OWN_AREA],
    own_cells: &mut [u8],
) -> Result<Option<Own>, Refusal>
    ensures { Does own_says (add_own id msgno key dir generation idx s ct.now) result
        (lent_own device.old contacts.now own.old own_cells.old)
        (lent_own device.new contacts.now own.new own_cells.new) no_answers no_answers }
{
    let contacts = Table {
        area: contacts,
        count: device.contacts,
    };
    if !holdings::known(contacts, id) {
        return Err(Refusal::UnknownContact);
    }
    let own_rows = Table {
        area: own,
        count: device.own,
    };
    if has_message(own_rows, id, msgno) {
        return Err(Refusal::MessageNumberTaken);
    }
    if !own_length(ct.len()) {
        return Err(Refusal::OwnLength);
    }
    if none_made(own_rows, ct.len()) {
        return Ok(None);
    }
    let cell = holdings::cells::free_own_cell(own_rows, own_cells.len()).ok_or(Refusal::NoCell)?;
    let tag = courier::route_tag(key, dir, generation, idx);
    let row = new_own(device, id, msgno, tag, s, ct.len(), cell);
    octets::copy_in(own_cells, cell * CELL, ct);
    device.own = insert_own(contacts, own, device.own, row);
    Ok(Some(row))
}
