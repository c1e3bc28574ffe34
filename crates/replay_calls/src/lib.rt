// A post, and the calls of a sample that set, hold, list and hand over: each is made with the inputs of its record on the post's areas,
// and gives the one answer that a host gets (crate host_answers).
#![tactic(auto)]

use host_answers::{
    Answer, acted_answer, answer_of, done_answer, envelope_answer, fetch_answer, inventory_answer,
    own_answer, wrote_answer,
};
use replay_log::{EXCHANGES, List, MAX_BAD_TAGS, MAX_TOMBSTONES, Record};
use rows::{
    BAD_TAG_WIDTH, CARRIED_AREA, CONTACT_AREA, Device, Exchange, MAX_CELLS, OWN_AREA, Own,
    PREFIX_WIDTH, Reply, Row, TOMBSTONE_WIDTH,
};

// ---- the areas of a post

// How many first bytes of four areas are lent: as many as a list's post has. They stand beside the areas, and not with each in a struct: of one
// that holds half a million bytes an unoptimized build keeps copies, and the program ran out of stack. It has no heap.
#[derive(Clone, Copy, Default)]
pub struct Lent {
    pub tombstones: usize,
    pub bad_tags: usize,
    pub own_cells: usize,
    pub cells: usize,
}

// The first n bytes or rows, or all where there are fewer. (Two functions, as std has `get` and `get_mut`. vectors has the same of bytes, and courier_post
// the first of them: the crates below all three are the library's, which has no use for them.)
pub fn front<T>(area: &[T], n: usize) -> &[T] {
    &area[..n.min(area.len())]
}

pub fn front_mut(area: &mut [u8], n: usize) -> &mut [u8] {
    let n = n.min(area.len());
    &mut area[..n]
}

// The bytes of the tables of a list's size, and of its cells.
const TOMBSTONE_AREA: usize = MAX_TOMBSTONES * TOMBSTONE_WIDTH;

const BAD_TAG_AREA: usize = MAX_BAD_TAGS * BAD_TAG_WIDTH;

const CELL_AREA: usize = MAX_CELLS * state::CELL;

// The most bytes of the other areas: each call says how many it lends, and some lend more than the library asks for.
const MOST_PREFIXES: usize = 4_200;

const MOST_OFFERS: usize = 8_900;

const MOST_REPLIES: usize = 600_000;

const MOST_ACTIONS: usize = 22_000;

// An exchange, with prefixes and offers of its own.
#[derive(Clone, Copy, Default)]
pub struct Session {
    exchange: Exchange,
    prefixes: [u8; MOST_PREFIXES],
    offers: [u8; MOST_OFFERS],
}

// A post of any list: areas of the greatest sizes, and the exchanges.
// (The drill's, courier_post's and screen_page's posts have areas of other sizes, which their calls or their contracts name, and no exchanges or one.
// One struct for all would have a parameter for each size.)
#[derive(Default, Drop)]
pub struct Post {
    pub device: Device,
    pub lent: Lent,
    sessions: [Session; EXCHANGES],
    pub contacts: [u8; CONTACT_AREA],
    pub own: [u8; OWN_AREA],
    pub carried: [u8; CARRIED_AREA],
    pub tombstones: [u8; TOMBSTONE_AREA],
    pub bad_tags: [u8; BAD_TAG_AREA],
    pub own_cells: [u8; CELL_AREA],
    pub cells: [u8; CELL_AREA],
    pub replies: [u8; MOST_REPLIES],
    pub actions: [u8; MOST_ACTIONS],
    pub wrote: usize, // how many bytes the last call wrote or read: they lie at the front of `replies`, which such a call lists none in
}

impl Post {
    // A list begins with a fresh device. What the areas hold stays: a fresh device has no row of it.
    pub fn begin(&mut self, list: List) {
        self.device = Device::fresh();
        for session in &mut self.sessions {
            session.exchange = Exchange::closed();
        }
        self.lent = Lent {
            tombstones: list.tombstones.saturating_mul(TOMBSTONE_WIDTH),
            bad_tags: list.bad_tags.saturating_mul(BAD_TAG_WIDTH),
            own_cells: list.own_cells.saturating_mul(state::CELL),
            cells: list.cells.saturating_mul(state::CELL),
        };
    }
}

// ---- what the host sets

pub fn call_contact(p: &mut Post, r: &Record) -> Answer {
    done_answer(contacts::contact(&mut p.device, r.peer(), r.verification(), &mut p.contacts))
}

pub fn call_setting(p: &mut Post, r: &Record) -> Answer {
    done_answer(contacts::setting(&mut p.device, r.enabled(), r.copies(), r.lifetime()))
}

pub fn call_clock(p: &mut Post, r: &Record) -> Answer {
    contacts::clock(&mut p.device, r.number());
    done_answer(Ok(()))
}

pub fn call_fresh_exchange(p: &mut Post, r: &Record) -> Answer {
    let session = &mut p.sessions[r.exchange()];
    done_answer(contacts::fresh_exchange(
        &mut session.exchange,
        p.device,
        r.peer(),
        &p.contacts,
        front(&session.prefixes, r.prefixes_area()),
        front(&session.offers, r.offers_area()),
    ))
}

// ---- envelopes

pub fn call_envelope(p: &mut Post, r: &Record) -> Answer {
    envelope_answer(envelope::envelope(
        &mut p.device,
        r.peer(),
        r.header(),
        r.rest,
        r.front,
        &p.contacts,
        &p.own,
        &mut p.carried,
        front(&p.tombstones, p.lent.tombstones),
        front_mut(&mut p.cells, p.lent.cells),
        front_mut(&mut p.replies, r.replies_area()),
        front_mut(&mut p.actions, r.actions_area()),
    ))
}

// Of a fetch that returned another ciphertext than that of its record. No call answers a host that, and no record says it.
const OTHER_CIPHERTEXT: u8 = 255;

// Is it the ciphertext of the record's one reply? The record has its length in the place of the cell, and its bytes.
fn is_fetched(r: &Record, ct: &[u8]) -> bool {
    match r.replies.first() {
        Some(reply) => ct == front(r.expected, usize::from(Reply::read(reply, 0).cell)),
        None => false,
    }
}

pub fn call_fetch(p: &mut Post, r: &Record) -> Answer {
    let found = fetch::fetch(
        p.device,
        r.peer(),
        r.tag(),
        &p.contacts,
        &p.own,
        &p.carried,
        front(&p.own_cells, p.lent.own_cells),
        front(&p.cells, p.lent.cells),
        front_mut(&mut p.replies, r.replies_area()),
    );
    match found {
        Ok(Some(ct)) if !is_fetched(r, ct) => answer_of(OTHER_CIPHERTEXT, 1, 0, 0),
        found => fetch_answer(found, 1),
    }
}

// What is written one run behind the other at the front of an area, as far as there is room. (Not std's `Cursor`: each run's result would be passed on
// through every caller, and no run has too little room here.)
#[derive(Drop)]
pub struct Writer<'a> {
    area: &'a mut [u8],
    at: usize,
}

impl<'a> Writer<'a> {
    pub fn new(area: &'a mut [u8]) -> Writer<'a> {
        Writer { area, at: 0 }
    }

    // A run that has no room is left out.
    pub fn put(&mut self, run: &[u8]) {
        let end = self.at.saturating_add(run.len());
        if let Some(place) = self.area.get_mut(self.at..end) {
            place.copy_from_slice(run);
            self.at = end;
        }
    }

    // How many bytes were written.
    pub fn end(self) -> usize {
        self.at
    }
}

// A new own row: its bytes without its cell, and its ciphertext.
fn put_own(row: Own, cells: &[u8], area: &mut [u8]) -> usize {
    let bytes = row.bytes();
    let mut writer = Writer::new(area);
    writer.put(front(&bytes, Own::CELL));
    writer.put(holdings::cells::cell_part(cells, row.cell, row.len));
    writer.end()
}

pub fn call_own_envelope(p: &mut Post, r: &Record) -> Answer {
    let made = own_envelope::own_envelope(
        &mut p.device,
        r.peer(),
        r.message(),
        r.route_key(),
        r.dir(),
        r.generation(),
        r.index(),
        r.second(),
        r.rest,
        &p.contacts,
        &mut p.own,
        front_mut(&mut p.own_cells, p.lent.own_cells),
    );
    if let Ok(Some(row)) = made {
        p.wrote = put_own(row, front(&p.own_cells, p.lent.own_cells), &mut p.replies);
    }
    own_answer(made)
}

// ---- inventories and custody codes

pub fn call_inventory(p: &mut Post, r: &Record) -> Answer {
    let session = &mut p.sessions[r.exchange()];
    inventory_answer(inventory::receive_inventory(
        &mut session.exchange,
        p.device,
        r.peer(),
        &p.contacts,
        &p.own,
        &p.carried,
        front(&p.tombstones, p.lent.tombstones),
        front(&p.bad_tags, p.lent.bad_tags),
        r.front,
        r.rest,
        front_mut(&mut session.prefixes, r.prefixes_area()),
        front_mut(&mut session.offers, r.offers_area()),
        front_mut(&mut p.replies, r.replies_area()),
    ))
}

pub fn call_custody_code(p: &mut Post, r: &Record) -> Answer {
    let session = &mut p.sessions[r.exchange()];
    acted_answer(handover::handed_over(
        &mut session.exchange,
        &mut p.device,
        r.peer(),
        r.tag(),
        r.custody(),
        &p.contacts,
        &mut p.own,
        &mut p.carried,
        front(&p.tombstones, p.lent.tombstones),
        front(&session.prefixes, r.prefixes_area()),
        front_mut(&mut session.offers, r.offers_area()),
        front_mut(&mut p.actions, r.actions_area()),
    ))
}

// The listed prefixes go to the front of `replies`: this call lists no reply.
pub fn call_inventory_of_ours(p: &mut Post, r: &Record) -> Answer {
    let answer = wrote_answer(inventory::inventory(
        p.device,
        r.peer(),
        &p.contacts,
        &p.own,
        &p.carried,
        front_mut(&mut p.replies, r.answer_area()),
    ));
    p.wrote = answer.length.saturating_mul(PREFIX_WIDTH);
    answer
}
