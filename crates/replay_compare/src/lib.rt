// The comparison of a call's answer with what its record says: the answer, each reply with its ciphertext, each action with the blob
// of its row, and what the call wrote or read.
#![tactic(auto)]

use answers::FIRST_CARRIED;
use host_answers::Answer;
use replay_calls::{Post, front};
use replay_log::{Kind, PUT_WIDTH, Record};
use rows::{ACTION_WIDTH, Action, CARRIED_WIDTH, Carried, OWN_WIDTH, Own, REPLY_WIDTH, Reply, Row};
use std::fmt;

// What differs. Replies and actions are told by their place, from 0 on.
#[derive(Clone, Copy)]
pub enum Difference {
    Answer,
    Reply(usize),
    Ciphertext(usize), // of a reply
    Action(usize),
    Blob(usize), // of the row that an action put
    Bytes, // that were written or read
}

impl fmt::Display for Difference {
    fn fmt<W: fmt::Write>(&self, f: &mut fmt::Formatter<W>) -> fmt::Result {
        match self {
            Difference::Answer => f.write_str("the answer"),
            Difference::Reply(i) => write!(f, "reply {i}"),
            Difference::Ciphertext(i) => write!(f, "the ciphertext of reply {i}"),
            Difference::Action(i) => write!(f, "action {i}"),
            Difference::Blob(i) => write!(f, "the blob of action {i}"),
            Difference::Bytes => f.write_str("what it wrote or read"),
        }
    }
}

// A refused call says nothing but its number. An inventory's length counts the rows for which its end searched the tombstones.
fn same_answer(r: &Record, a: &Answer) -> bool {
    let searched = if r.kind == Kind::Inventory {
        a.length
    } else {
        0
    };
    r.said() == a.said
        && r.said_contact() == a.contact
        && r.said_generation() == a.generation
        && r.said_index() == a.idx
        && r.replies.len() == a.replies
        && r.actions.len() == a.actions
        && r.searched() == searched
}

// The ciphertext of an own row's cell; none where no row names it.
fn own_sent(p: &Post, cell: u16) -> &[u8] {
    let rows: &[[u8; OWN_WIDTH]] = p.own.as_chunks().0;
    let row = front(rows, p.device.own)
        .iter()
        .map(|bytes| Own::read(bytes, 0))
        .find(|row| row.cell == cell);
    match row {
        Some(row) => holdings::cells::cell_part(
            front(&p.own_cells, p.lent.own_cells),
            cell,
            row.len,
        ),
        None => b"",
    }
}

// The same, of a carried row. (Two functions: the trait `Row` has no method for a cell. One function would take the rows, the cells and a closure that
// gives a row's cell and length: no shorter at its two calls.)
fn carried_sent(p: &Post, cell: u16) -> &[u8] {
    let rows: &[[u8; CARRIED_WIDTH]] = p.carried.as_chunks().0;
    let row = front(rows, p.device.carried)
        .iter()
        .map(|bytes| Carried::read(bytes, 0))
        .find(|row| row.cell == cell);
    match row {
        Some(row) => holdings::cells::cell_part(front(&p.cells, p.lent.cells), cell, row.len),
        None => b"",
    }
}

// The ciphertext of a reply's cell.
fn sent(p: &Post, cell: u16) -> &[u8] {
    match cell.checked_sub(FIRST_CARRIED) {
        None => own_sent(p, cell),
        Some(cell) => carried_sent(p, cell),
    }
}

// The first n of the expected bytes, and those behind them. Where fewer are left they are all: a record whose length of a ciphertext or a blob says
// more than is there agrees where the bytes that are there do.
fn take(expected: &[u8], n: usize) -> (&[u8], &[u8]) {
    expected.split_at(n.min(expected.len()))
}

// Compares the reply at i, and takes its ciphertext off the front of the expected bytes. An envelope's cell is not compared: the record has
// the length of the ciphertext in its place.
fn compare_reply<'r>(
    expected: &'r [u8],
    i: usize,
    ours: Reply,
    theirs: Reply,
    p: &Post,
) -> Result<&'r [u8], Difference> {
    let has_envelope = ours.kind == Reply::ENVELOPE;
    let same_cell = has_envelope || ours.cell == theirs.cell;
    if ours.kind != theirs.kind || ours.body != theirs.body || !same_cell {
        return Err(Difference::Reply(i));
    }
    if !has_envelope {
        return Ok(expected);
    }
    let (ciphertext, rest) = take(expected, usize::from(theirs.cell));
    if sent(p, ours.cell) == ciphertext {
        Ok(rest)
    } else {
        Err(Difference::Ciphertext(i))
    }
}

// Is the blob of the row that was put theirs? It has no bytes where no row has the slot.
fn same_put(p: &Post, slot: u64, theirs: &[u8]) -> bool {
    let mut blob = [0u8; state::BLOB];
    match saved::row_blob(
        p.device,
        slot,
        &p.carried,
        front(&p.tombstones, p.lent.tombstones),
        front(&p.cells, p.lent.cells),
        &mut blob,
    ) {
        Ok(Some(n)) => front(&blob, n) == theirs,
        Ok(None) => theirs.is_empty(),
        Err(_) => false,
    }
}

// Compares the action at i, and takes the blob of the row that it put off the front of the expected bytes. A record's action has two bytes more,
// the length of the blob.
fn compare_action<'r>(
    expected: &'r [u8],
    i: usize,
    ours: &[u8; ACTION_WIDTH],
    theirs: &[u8; PUT_WIDTH],
    p: &Post,
) -> Result<&'r [u8], Difference> {
    if ours[..] != theirs[..ACTION_WIDTH] {
        return Err(Difference::Action(i));
    }
    let action = Action::read(ours, 0);
    if action.kind != Action::PUT {
        return Ok(expected);
    }
    let (blob, rest) = take(expected, usize::from(octets::get_u16(theirs, ACTION_WIDTH)));
    if same_put(p, action.number, blob) {
        Ok(rest)
    } else {
        Err(Difference::Blob(i))
    }
}

// What the call wrote or read is all of the expected bytes that are left.
pub fn compare(answer: &Answer, p: &Post, r: &Record) -> Result<(), Difference> {
    if !same_answer(r, answer) {
        return Err(Difference::Answer);
    }
    let mut expected = r.expected;
    let replies: &[[u8; REPLY_WIDTH]] = p.replies.as_chunks().0;
    for (i, (ours, theirs)) in replies.iter().zip(r.replies).enumerate() {
        expected = compare_reply(expected, i, Reply::read(ours, 0), Reply::read(theirs, 0), p)?;
    }
    let actions: &[[u8; ACTION_WIDTH]] = p.actions.as_chunks().0;
    for (i, (ours, theirs)) in actions.iter().zip(r.actions).enumerate() {
        expected = compare_action(expected, i, ours, theirs, p)?;
    }
    if front(&p.replies, p.wrote) == expected {
        Ok(())
    } else {
        Err(Difference::Bytes)
    }
}
