// The rows of the reply and action areas: what is in them, and functions that write one row at a place; and what calls answer beside them.
#![tactic(auto)]

ghost use Rattle.std.specs.Prelude.{◌≡◌, ◌+◌, ◌*◌, ◌/◌, ◌≤◌, ◌++◌, length, drop, replicate, nat_lt};
ghost use Rattle.octets.specs.Bytes.{splice};
ghost use Rattle.rows.specs.Rows.{action_width, reply_width, tombstone_width, action_bytes, reply_bytes};
ghost use Rattle.rows.specs.Limits.{max_cells, action_area};
ghost use Rattle.model.specs.Exchange.{own_envelope_of, carried_envelope_of};
ghost use Rattle.model.specs.Calls.{short_replies, of_own, of_carried, cell_from, reply_cell, put_courier, delete_courier, put_queued, fetch_reply, envelope_row, custody_reply, tomb_reply};

use courier::{Custody, Header};
use courier_core::ContactId;
use rows::{
    ACTION_WIDTH, Action, Carried, LISTED_ACTIONS, MAX_CELLS, Own, REPLY_AREA, REPLY_BODY, Reply,
    Row, TOMBSTONE_WIDTH,
};

// What the calls tomb, report opened and report failed answer that are not refused: malformed, or how many actions are listed.
// (Not `Option<usize>`: its `None` would not say malformed. Crate inventory says why its `Said` is another.)
#[derive(Drop)]
pub enum Said {
    Malformed,
    Done(usize),
}

// ---- the header of a row's envelope, and its cell as a reply says it

// (A function for each kind of row: an own row has the secret, of which the commitment is taken.)
#[tactic(auto, unfolding(model::specs::Exchange::own_envelope_of))]
pub fn own_header(row: Own) -> Header
    ensures { result ≡ (own_envelope_of row).head }
{
    let Own {
        tag,
        s,
        expiry_min,
        copies,
        ..
    } = row;
    Header {
        tag,
        c: courier::commitment(s),
        expiry_min,
        copies,
    }
}

#[tactic(auto, unfolding(model::specs::Exchange::carried_envelope_of))]
pub fn carried_header(row: Carried) -> Header
    ensures { result ≡ (carried_envelope_of row).head }
{
    let Carried {
        tag,
        c,
        expiry_min,
        copies,
        ..
    } = row;
    Header {
        tag,
        c,
        expiry_min,
        copies,
    }
}

// In a reply, the cell of a row that names one past those that count: it has no ciphertext. (A number and no Option: it goes into the two bytes that a
// reply has for it, and C reads it there.)
pub const NO_CELL: u16 = u16::MAX;

// The first number of a carried cell: those before it are of own cells.
pub const FIRST_CARRIED: u16 = MAX_CELLS as u16;

// A cell that counts, from the first number of its kind on.
fn cell_from(first: u16, cell: u16) -> u16
    requires { first ≤ max_cells }
    ensures { result ≡ cell_from first cell }
{
    if usize::from(cell) < MAX_CELLS {
        first + cell
    } else {
        NO_CELL
    }
}

pub fn own_cell(cell: u16) -> u16
    ensures { result ≡ reply_cell of_own cell }
{
    cell_from(0, cell)
}

pub fn carried_cell(cell: u16) -> u16
    ensures { result ≡ reply_cell of_carried cell }
{
    cell_from(FIRST_CARRIED, cell)
}

// ---- areas that are too short for what a call may list

pub fn short_replies(replies: usize) -> bool
    ensures { result ≡ short_replies replies }
{
    replies < REPLY_AREA
}

// An action area has room for LISTED_ACTIONS rows, and for one more for each row of the tombstones' area, which has so many bytes.
pub fn short_actions(actions: usize, tombstones: usize) -> bool
    ensures { result ≡ nat_lt actions (action_area (tombstones / tombstone_width)) }
{
    actions < ACTION_WIDTH * (LISTED_ACTIONS + tombstones / TOMBSTONE_WIDTH)
}

// ---- rows that are written

// Each public function from here on writes one action or one reply at a place. (One over the kind would make each call name the kind, and an action's number and
// message number, which the name of a function here says. They ask room for the row at that place: given a part of the area, every caller would cut it,
// and owe the same.)

// ---- actions

pub fn put_courier(actions: &mut [u8], at: usize, slot: u64)
    requires { at + action_width ≤ length actions.old }
    ensures { actions.new ≡ splice actions.old at (action_bytes (put_courier slot)) }
{
    let row = Action {
        kind: Action::PUT,
        number: slot,
        msgno: 0,
    };
    row.put(actions, at);
}

pub fn delete_courier(actions: &mut [u8], at: usize, slot: u64)
    requires { at + action_width ≤ length actions.old }
    ensures { actions.new ≡ splice actions.old at (action_bytes (delete_courier slot)) }
{
    let row = Action {
        kind: Action::DELETE,
        number: slot,
        msgno: 0,
    };
    row.put(actions, at);
}

pub fn put_queued(actions: &mut [u8], at: usize, id: ContactId, msgno: u32)
    requires { at + action_width ≤ length actions.old }
    ensures { actions.new ≡ splice actions.old at (action_bytes (put_queued id msgno)) }
{
    let row = Action {
        kind: Action::PUT_QUEUED,
        number: id.0,
        msgno,
    };
    row.put(actions, at);
}

// ---- replies

// The body of a reply: a tag, what follows it, and zeros.
fn body_of(tag: [u8; 16], more: &[u8]) -> [u8; REPLY_BODY]
    requires { length more.now ≤ 21 }
    ensures { result ≡ tag ++ (more.now ++ drop (length more.now) (replicate 21 0)) }
{
    let mut body = [0; REPLY_BODY];
    octets::copy_in(&mut body, 0, &tag);
    octets::copy_in(&mut body, tag.len(), more);
    body
}

pub fn put_fetch(replies: &mut [u8], at: usize, tag: [u8; 16])
    requires { at + reply_width ≤ length replies.old }
    ensures { replies.new ≡ splice replies.old at (reply_bytes (fetch_reply tag)) }
{
    let row = Reply {
        kind: Reply::FETCH,
        cell: 0,
        body: body_of(tag, b""),
    };
    row.put(replies, at);
}

// The cell is as a reply says it: `own_cell` or `carried_cell`. (Cell and header are two values: fetch's two calls would make a
// struct of both for this alone. offers has one of its own, `Offered`.)
pub fn put_envelope(replies: &mut [u8], at: usize, cell: u16, head: Header)
    requires { at + reply_width ≤ length replies.old }
    ensures { replies.new ≡ splice replies.old at (reply_bytes (envelope_row cell head)) }
{
    let row = Reply {
        kind: Reply::ENVELOPE,
        cell,
        body: courier::header_bytes(head),
    };
    row.put(replies, at);
}

pub fn put_custody(replies: &mut [u8], at: usize, tag: [u8; 16], code: Custody)
    requires { at + reply_width ≤ length replies.old }
    ensures { replies.new ≡ splice replies.old at (reply_bytes (custody_reply tag code)) }
{
    let row = Reply {
        kind: Reply::CUSTODY,
        cell: 0,
        body: body_of(tag, &[code.code()]),
    };
    row.put(replies, at);
}

pub fn put_tomb(replies: &mut [u8], at: usize, tag: [u8; 16], s: [u8; 16])
    requires { at + reply_width ≤ length replies.old }
    ensures { replies.new ≡ splice replies.old at (reply_bytes (tomb_reply tag s)) }
{
    let row = Reply {
        kind: Reply::TOMB,
        cell: 0,
        body: body_of(tag, &s),
    };
    row.put(replies, at);
}
