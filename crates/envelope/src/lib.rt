// The envelope call: `receive_envelope`, `carry` and `put_held` of couriering.rs.
#![tactic(auto)]

ghost use Rattle.std.specs.Prelude.{◌≡◌, ◌+◌, ◌*◌, ◌/◌, ◌<◌, ◌≤◌, not, ◌||◌, map, length};
ghost use Rattle.octets.specs.Bytes.{part};
ghost use Rattle.table.specs.Tables.{rows_in};
ghost use Rattle.state.specs.Sizes.{cell_size};
ghost use Rattle.rows.specs.Rows.{carried_codec, reachable_width, reachable_of};
ghost use Rattle.rows.specs.Limits.{max_cells};
ghost use Rattle.model.specs.Calls.{envelope as envelope_call, short_replies};
ghost use Rattle.model.specs.Areas.{Areas, view};
ghost use Rattle.model.specs.Lent.{Does, answers_lent};
ghost use Rattle.custody.specs.Lent.{Lent};
ghost use Rattle.envelope.specs.Answers.{taken, placed, envelope_choice, custody_choice, ours_of, new_row, Room, Carries, envelope_says, envelope_in};

use courier::{Custody, Header};
use courier_core::{ContactId, Refusal};
use custody::Tables;
use holdings::cells::free_carried_cell;
use holdings::lifetime_end;
use holdings::window::{lookup, unknown, wrong_window};
use rows::{CARRIED_AREA, CARRIED_WIDTH, CONTACT_AREA, Carried, Device, OWN_AREA, Reachable, Row};
use state::CELL;
use table::Table;

// What becomes of an envelope that is not refused: its place in the window, a code that holds no row, or the cell that it gets.
// (Three ways, none of them a refusal or nothing: neither `Option` nor `Result` has them.)
#[derive(Drop)]
pub enum Choice {
    Ours(usize),
    Code(Custody),
    Take(usize),
}

// What the call answers: the contact, generation and index of an envelope in the window; or how many replies and actions are listed.
// (Two answers, neither of them a refusal or nothing.)
#[derive(Drop)]
pub enum Answer {
    Ours(ContactId, u8, u32),
    Done(usize, usize),
}

// ---- what becomes of it: these only read

// The cell of an envelope that is accepted, in a cell area of size bytes: or why it gets none: `NoCell`, `NoSlot`.
fn place(carried: Table<CARRIED_WIDTH>, size: usize, next_slot: u64) -> Result<usize, Refusal>
    ensures { taken result ≡ placed size (map (λ x. x.cell) (rows_in carried_codec carried.entry)) next_slot }
{
    let cell = free_carried_cell(carried, size).ok_or(Refusal::NoCell)?;
    if next_slot == u64::MAX {
        return Err(Refusal::NoSlot);
    }
    Ok(cell)
}

// What becomes of an envelope that is not in the window.
fn custody_choice(
    tables: Tables,
    peer: ContactId,
    head: Header,
    len: usize,
) -> Result<Choice, Refusal>
    ensures { (a : Areas) → Lent a tables.entry → result ≡ custody_choice (view a) peer head len }
{
    match tables.custody(peer, head, len) {
        Custody::Accepted => {
            // (A field that is a lent array goes into a literal through a local: put there straight, the borrow check does not cover it.)
            let area = tables.carried;
            let carried = Table {
                area,
                count: tables.device.carried,
            };
            Ok(Choice::Take(place(carried, tables.size, tables.device.next_slot)?))
        }
        code => Ok(Choice::Code(code)),
    }
}

// What becomes of an envelope: the refusals in order, the window, the code.
// (Peer, header and length go one by one, as the model's definitions take them: of a struct each contract would name the three parts.)
fn decide(
    tables: Tables,
    peer: ContactId,
    head: Header,
    len: usize,
    window: &[u8],
    replies: usize,
    actions: usize,
) -> Result<Choice, Refusal>
    ensures { (a : Areas) → Lent a tables.entry → result ≡ envelope_choice (view a) replies actions window.now peer head len }
{
    if answers::short_replies(replies) || answers::short_actions(actions, tables.tombstones.len()) {
        return Err(Refusal::ShortArea);
    }
    if wrong_window(window) {
        return Err(Refusal::WindowRows);
    }
    let contacts = Table {
        area: tables.contacts,
        count: tables.device.contacts,
    };
    if unknown(contacts, peer, window) {
        return Err(Refusal::UnknownContact);
    }
    match lookup(window, head.tag) {
        Some(i) => Ok(Choice::Ours(i)),
        None => custody_choice(tables, peer, head, len),
    }
}

// The answer to an envelope that is in the window, in row i.
fn ours_at(window: &[u8], i: usize) -> Answer
    requires { i * reachable_width + reachable_width ≤ length window.now }
    ensures { result ≡ ours_of (reachable_of (part window.now (i * reachable_width) reachable_width)) }
{
    let row = Reachable::read(window, i * rows::REACHABLE_WIDTH);
    Answer::Ours(row.contact, row.generation, row.idx)
}

// ---- `carry`

// The new row: copies and expiry become the lesser of their own and the configured.
// (An array field goes into a literal through a local: put there straight, the borrow check does not cover it.)
fn new_row(device: Device, depositor: ContactId, head: Header, len: usize, cell: usize) -> Carried
    requires { (len ≤ cell_size) × (cell < max_cells) }
    ensures { result ≡ new_row device depositor head len cell }
{
    let tag = head.tag;
    let c = head.c;
    let end = lifetime_end(device.now_s, device.courier);
    Carried {
        slot: device.next_slot,
        depositor,
        tag,
        c,
        expiry_min: head.expiry_min.min(end),
        copies: head.copies.min(device.courier.copies),
        len: len as u16,
        cell: cell as u16,
    }
}

// Holds an accepted envelope: its row, its ciphertext in a cell, and the next slot taken.
fn carry(
    device: &mut Device,
    depositor: ContactId,
    head: Header,
    ct: &[u8],
    cell: usize,
    carried: &mut [u8],
    cells: &mut [u8],
)
    requires { Room device.old (length ct.now) cell (length carried.old) (length cells.old) }
    ensures { Carries device.old depositor head ct.now cell device.new carried.old carried.new cells.old cells.new }
{
    let row = new_row(*device, depositor, head, ct.len(), cell);
    let n = Carried::push(carried, device.carried, row);
    octets::copy_in(cells, cell * CELL, ct);
    device.carried = n;
    device.next_slot += 1;
}

// ---- the call

// An envelope that a peer sends. One in the window is ours, and the host opens it. Any other is answered by a custody code; an accepted one
// is held from then on.
// (The call is lent what the exported function of crate goosetable is lent: each area by itself.)
pub fn envelope(
    device: &mut Device,
    peer: ContactId,
    head: Header,
    ct: &[u8],
    window: &[u8],
    contacts: &[u8; CONTACT_AREA],
    own: &[u8; OWN_AREA],
    carried: &mut [u8; CARRIED_AREA],
    tombstones: &[u8],
    carried_cells: &mut [u8],
    replies: &mut [u8],
    actions: &mut [u8],
) -> Result<Answer, Refusal>
    ensures { Does envelope_says (envelope_call (length replies.old) (length actions.old) window.now peer head ct.now) result
        (envelope_in device.old contacts.now own.now carried.old tombstones.now carried_cells.old)
        (envelope_in device.new contacts.now own.now carried.new tombstones.now carried_cells.new)
        (answers_lent replies.old actions.old) (answers_lent replies.new actions.new) }
{
    let tables = Tables {
        device: *device,
        contacts,
        own,
        carried,
        tombstones,
        size: carried_cells.len(),
    };
    let choice = decide(
        tables,
        peer,
        head,
        ct.len(),
        window,
        replies.len(),
        actions.len(),
    )?;
    match choice {
        Choice::Ours(i) => Ok(ours_at(window, i)),
        Choice::Code(code) => {
            answers::put_custody(replies, 0, head.tag, code);
            Ok(Answer::Done(1, 0))
        }
        Choice::Take(cell) => {
            let slot = device.next_slot;
            carry(device, peer, head, ct, cell, carried, carried_cells);
            answers::put_custody(replies, 0, head.tag, Custody::Accepted);
            answers::put_courier(actions, 0, slot);
            Ok(Answer::Done(1, 1))
        }
    }
}
