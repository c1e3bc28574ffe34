// A small post: a device, and the areas that the calls are lent. Each call gives the one answer that a host gets (crate host_answers); its replies and
// actions lie in the post's areas.
ghost use Rattle.std.specs.Prelude.{◌<◌};

use crate::tags::{Head, ROUTE_KEY, Secret, Tag};
use chain::Dir;
use courier::Custody;
use courier_core::{ContactId, Verification};
use host_answers::{
    Answer, acted_answer, blob_answer, done_answer, envelope_answer, fetch_answer,
    inventory_answer, own_answer, tomb_answer, wrote_answer,
};
use rows::{
    ACTION_WIDTH, BAD_TAG_WIDTH, CARRIED_AREA, CARRIED_WIDTH, CONTACT_AREA, Carried, Device,
    Exchange, LISTED_ACTIONS, MAX_CARRIED, OFFER_AREA, OWN_AREA, OWN_WIDTH, PREFIX_AREA,
    REPLY_AREA, Row, TOMBSTONE_WIDTH,
};
use state::{BLOB, CELL, FILE_HEAD, RECORD_HEAD, TOMBSTONE_ROW};

// The seconds of a minute. (A number of the program's own: what crate holdings divides by is what is tried.)
pub const MINUTE: u64 = 60;

// The rows of the two small tables, the cells, and the exchanges.
const TOMBSTONES: usize = 4;

const BAD_TAGS: usize = 2;

const OWN_CELLS: usize = 4;

const CARRIED_CELLS: usize = 16;

const LINKS: usize = 3;

// Their bytes.
const TOMBSTONE_AREA: usize = TOMBSTONES * TOMBSTONE_WIDTH;

const BAD_TAG_AREA: usize = BAD_TAGS * BAD_TAG_WIDTH;

const OWN_CELL_AREA: usize = OWN_CELLS * CELL;

const CARRIED_CELL_AREA: usize = CARRIED_CELLS * CELL;

// The bytes of an action area for so many tombstones.
const ACTION_AREA: usize = ACTION_WIDTH * (LISTED_ACTIONS + TOMBSTONES);

// The bytes of a saved file of so many cells and tombstones, all used.
pub const FILE_AREA: usize = FILE_HEAD
    + CARRIED_CELLS * (RECORD_HEAD + BLOB)
    + TOMBSTONES * (RECORD_HEAD + TOMBSTONE_ROW);

// An exchange with a peer, with the areas of what it lists and of what it is offered.
#[derive(Clone, Copy, Default)]
pub struct Link {
    peer: u64,
    pub exchange: Exchange,
    prefixes: [u8; PREFIX_AREA],
    offers: [u8; OFFER_AREA],
}

// (Its own struct: the posts of replay_calls, the drill and screen_page have areas of other sizes, and one for all would have a parameter for each size.)
#[derive(Default, Drop)]
pub struct Post {
    pub device: Device,
    pub links: [Link; LINKS],
    contacts: [u8; CONTACT_AREA],
    own: [u8; OWN_AREA],
    carried: [u8; CARRIED_AREA],
    tombstones: [u8; TOMBSTONE_AREA],
    bad_tags: [u8; BAD_TAG_AREA],
    own_cells: [u8; OWN_CELL_AREA],
    carried_cells: [u8; CARRIED_CELL_AREA],
    pub replies: [u8; REPLY_AREA],
    pub actions: [u8; ACTION_AREA],
    pub prefixes: [u8; PREFIX_AREA],
}

// The ciphertext of an envelope, the shortest that a courier carries. One that a peer sends has the first byte of its tag.
fn ciphertext(b: u8) -> [u8; 48] {
    [b; 48]
}

// The contact that a tomb comes from.
const TOMB_SENDER: ContactId = ContactId(7);

// The first n rows, or all where there are fewer. (replay_calls has the same as `front`, and vectors as `first`, of bytes. The crates below all
// three are the library's, which has no use for it.)
pub fn first<T>(rows: &[T], n: usize) -> &[T] {
    &rows[..n.min(rows.len())]
}

// The first n rows of an area. (Of the width of a row is asked what `as_chunks` asks.)
pub fn first_rows<const N: usize>(area: &[u8], n: usize) -> &[[u8; N]]
    requires { 0 < N × N < 9223372036854775808 }
{
    first(area.as_chunks().0, n)
}

impl Post {
    // ---- what the host sets

    pub fn clock(&mut self, seconds: u64) {
        contacts::clock(&mut self.device, seconds);
    }

    pub fn setting(&mut self, copies: u8, lifetime: u16) -> Answer {
        done_answer(contacts::setting(&mut self.device, true, copies, lifetime))
    }

    pub fn contact(&mut self, id: u64) -> Answer {
        done_answer(contacts::contact(
            &mut self.device,
            ContactId(id),
            Verification::Unverified,
            &mut self.contacts,
        ))
    }

    // ---- envelopes

    // An own envelope for a contact.
    pub fn own_envelope(&mut self, contact: u64, msgno: u32) -> Answer {
        own_answer(own_envelope::own_envelope(
            &mut self.device,
            ContactId(contact),
            msgno,
            ROUTE_KEY,
            Dir::I,
            0,
            msgno,
            Secret::Own.bytes(),
            &ciphertext(0),
            &self.contacts,
            &mut self.own,
            &mut self.own_cells,
        ))
    }

    // An envelope that a peer sends, with no window.
    pub fn envelope(&mut self, peer: u64, head: Head) -> Answer {
        let header = head.header();
        let ct = ciphertext(header.tag[0]);
        envelope_answer(envelope::envelope(
            &mut self.device,
            ContactId(peer),
            header,
            &ct,
            b"",
            &self.contacts,
            &self.own,
            &mut self.carried,
            &self.tombstones,
            &mut self.carried_cells,
            &mut self.replies,
            &mut self.actions,
        ))
    }

    pub fn fetch(&mut self, peer: u64, tag: Tag) -> Answer {
        fetch_answer(
            fetch::fetch(
                self.device,
                ContactId(peer),
                tag.bytes(),
                &self.contacts,
                &self.own,
                &self.carried,
                &self.own_cells,
                &self.carried_cells,
                &mut self.replies,
            ),
            1,
        )
    }

    // The copies of the carried row at i fell to 0, as peers that accept leave them.
    pub fn without_copies(&mut self, i: usize) {
        let at = i % MAX_CARRIED * CARRIED_WIDTH;
        let row = Carried {
            copies: 0,
            ..Carried::read(&self.carried, at)
        };
        row.put(&mut self.carried, at);
    }

    // ---- tombstones, reports, tombs, maintenance

    // A tombstone whose secret has the bytes of its tag is stored.
    pub fn stored_tombstone(&mut self, tag: Tag, expiry: u32) -> Answer {
        let tag = tag.bytes();
        acted_answer(stored_tombstone::stored_tombstone(
            &mut self.device,
            tag,
            tag,
            expiry,
            &mut self.tombstones,
            &mut self.actions,
        ))
    }

    // The host reports an envelope opened.
    pub fn report_opened(&mut self, peer: u64, tag: Tag, expiry: u32) -> Answer {
        tomb_answer(
            reports::report_opened(
                &mut self.device,
                ContactId(peer),
                tag.bytes(),
                Secret::Carried.bytes(),
                expiry,
                &self.contacts,
                &mut self.tombstones,
                &mut self.replies,
                &mut self.actions,
            ),
            1,
        )
    }

    // A tag is bad for a peer.
    pub fn report_failed(&mut self, peer: u64, tag: Tag) -> Answer {
        tomb_answer(
            reports::report_failed(
                &mut self.device,
                ContactId(peer),
                tag.bytes(),
                &self.contacts,
                &mut self.bad_tags,
            ),
            0,
        )
    }

    // A tomb of a contact.
    pub fn tomb(&mut self, tag: Tag, secret: Secret) -> Answer {
        tomb_answer(
            tombs::receive_tomb(
                &mut self.device,
                TOMB_SENDER,
                tag.bytes(),
                secret.bytes(),
                &self.contacts,
                &mut self.own,
                &mut self.carried,
                &mut self.tombstones,
                &mut self.actions,
            ),
            0,
        )
    }

    pub fn maintenance(&mut self) -> Answer {
        acted_answer(maintenance::maintain_couriers(
            &mut self.device,
            &mut self.own,
            &mut self.carried,
            &mut self.tombstones,
            &mut self.actions,
        ))
    }

    // ---- exchanges

    // Our inventory for a peer.
    pub fn inventory_of_ours(&mut self, peer: u64) -> Answer {
        wrote_answer(inventory::inventory(
            self.device,
            ContactId(peer),
            &self.contacts,
            &self.own,
            &self.carried,
            &mut self.prefixes,
        ))
    }

    // A fresh exchange with a peer takes the place of exchange i.
    pub fn open(&mut self, i: usize, peer: u64) -> Answer {
        let link = &mut self.links[i % LINKS];
        link.peer = peer;
        link.exchange = Exchange::closed();
        done_answer(contacts::fresh_exchange(
            &mut link.exchange,
            self.device,
            ContactId(peer),
            &self.contacts,
            &link.prefixes,
            &link.offers,
        ))
    }

    // The peer of exchange i lists prefixes.
    pub fn receive(&mut self, i: usize, window: &[u8], list: &[u8]) -> Answer {
        let link = &mut self.links[i % LINKS];
        inventory_answer(inventory::receive_inventory(
            &mut link.exchange,
            self.device,
            ContactId(link.peer),
            &self.contacts,
            &self.own,
            &self.carried,
            &self.tombstones,
            &self.bad_tags,
            window,
            list,
            &mut link.prefixes,
            &mut link.offers,
            &mut self.replies,
        ))
    }

    // The peer of exchange i accepts what it was offered of a tag.
    pub fn accepted(&mut self, i: usize, tag: Tag) -> Answer {
        let link = &mut self.links[i % LINKS];
        acted_answer(handover::handed_over(
            &mut link.exchange,
            &mut self.device,
            ContactId(link.peer),
            tag.bytes(),
            Custody::Accepted,
            &self.contacts,
            &mut self.own,
            &mut self.carried,
            &self.tombstones,
            &link.prefixes,
            &mut link.offers,
            &mut self.actions,
        ))
    }

    // ---- its held rows as bytes

    // The blob of the held row in a slot; no byte where there is none.
    pub fn blob<'a>(&self, slot: u64, area: &'a mut [u8; BLOB]) -> &'a [u8] {
        let answer = blob_answer(saved::row_blob(
            self.device,
            slot,
            &self.carried,
            &self.tombstones,
            &self.carried_cells,
            area,
        ));
        first(area, answer.length)
    }

    // The saved file; no byte where it is refused.
    pub fn file<'a>(&self, area: &'a mut [u8; FILE_AREA]) -> &'a [u8] {
        let answer = wrote_answer(saved::save(
            self.device,
            &self.carried,
            &self.tombstones,
            &self.carried_cells,
            area,
        ));
        first(area, answer.length)
    }

    // The held rows of a saved file.
    pub fn load(&mut self, file: &[u8]) -> Answer {
        done_answer(load::load(
            &mut self.device,
            &self.contacts,
            &mut self.carried,
            &mut self.tombstones,
            &mut self.carried_cells,
            file,
        ))
    }

    // ---- the rows that it has

    pub fn own_rows(&self) -> &[[u8; OWN_WIDTH]] {
        first_rows(&self.own, self.device.own)
    }

    pub fn carried_rows(&self) -> &[[u8; CARRIED_WIDTH]] {
        first_rows(&self.carried, self.device.carried)
    }

    pub fn tombstone_rows(&self) -> &[[u8; TOMBSTONE_WIDTH]] {
        first_rows(&self.tombstones, self.device.tombstones)
    }
}
