// The entries of a sample: the calls of lists, each with what it is made with and what it must answer. Numbers are big-endian.
//
//   sample   "SAMPLE 3", the lists, then `E`, how many lists (2 bytes) and how many calls (4)
//   list     `L`, carried cells (2), own cells (2), tombstone rows (2), bad-tag rows (2), calls (2); then the calls
//   call     a head of 112 bytes, the first of them `C`, the others at the places below, and five runs of bytes:
//            the front (window rows, skipped rows, or a route key), the rest (ciphertext, prefixes, chain rows, blob, or file),
//            reply rows of 40 bytes, with the length of the ciphertext in the place of the cell,
//            action rows of 15 bytes: the library's 13, and the length of the blob of a row that was put,
//            and the expected bytes: the ciphertexts of the replies, the blobs of the puts, and what the call wrote or read
#![tactic(auto)]

ghost use Rattle.std.specs.Prelude.{◌<◌, ◌≤◌, IfSome, length};
ghost use Rattle.std.specs.Iterator.{at_most};

use chain::Dir;
use courier::{Custody, Header};
use courier_core::{ContactId, Refusal, Verification};
use rows::{ACTION_WIDTH, MAX_CELLS, REPLY_WIDTH};
use std::fmt;

// ---- the sizes of a post

pub const EXCHANGES: usize = 3;

// The most tombstone and bad-tag rows that a list has.
pub const MAX_TOMBSTONES: usize = 1_100;

pub const MAX_BAD_TAGS: usize = 10;

// ---- places in the head of a call

// The byte of a `Kind`.
const KIND: usize = 1;

// Which of the exchanges.
const EXCHANGE: usize = 2;

// A verification, enabled, a custody code, or a direction.
const SMALL: usize = 3;

const COPIES: usize = 4;

const GENERATION: usize = 5;

const LIFETIME: usize = 6;

// A contact, a peer, seconds, a slot, or a page.
const NUMBER: usize = 8;

const EXPIRY: usize = 16;

const INDEX: usize = 20;

const MESSAGE: usize = 24;

const TAG: usize = 28;

// A commitment or a secret.
const SECOND: usize = 44;

// The lengths of the areas for answers, prefixes and offers: where one is too short the call is refused with `ShortArea`.
const REPLIES_AREA: usize = 60;

const PREFIXES_AREA: usize = 64;

const OFFERS_AREA: usize = 68;

const ACTIONS_AREA: usize = 72;

const ANSWER_AREA: usize = 76;

// The lengths of the front and the rest.
const FRONT: usize = 80;

const REST: usize = 84;

// What must be answered: the number of what the library answers a host.
const SAID: usize = 88;

const SAID_GENERATION: usize = 89;

const SAID_INDEX: usize = 90;

const SAID_CONTACT: usize = 94;

// How many rows and bytes the other three runs have.
const REPLIES: usize = 102;

const ACTIONS: usize = 104;

const BYTES: usize = 106;

// For how many rows the end of an inventory searched the tombstones.
const SEARCHED: usize = 110;

const HEAD: usize = 112;

// ---- kinds of calls

#[derive(Clone, Copy, PartialEq, Eq)]
pub enum Kind {
    Contact,
    Setting,
    Clock,
    FreshExchange,
    Envelope,
    Inventory,
    Fetch,
    CustodyCode,
    Tomb,
    Opened,
    Failed,
    StoredTombstone,
    OwnEnvelope,
    Maintenance,
    InventoryOfOurs,
    Window,
    RowBlob,
    RowRead,
    Save,
    Load,
    Page,
}

// In the order of their bytes, from 0 on, and of the enum.
pub const KINDS: [Kind; 21] = [
    Kind::Contact,
    Kind::Setting,
    Kind::Clock,
    Kind::FreshExchange,
    Kind::Envelope,
    Kind::Inventory,
    Kind::Fetch,
    Kind::CustodyCode,
    Kind::Tomb,
    Kind::Opened,
    Kind::Failed,
    Kind::StoredTombstone,
    Kind::OwnEnvelope,
    Kind::Maintenance,
    Kind::InventoryOfOurs,
    Kind::Window,
    Kind::RowBlob,
    Kind::RowRead,
    Kind::Save,
    Kind::Load,
    Kind::Page,
];

// (No `TryFrom`: it would need an error type, which says no more than `None`.)
impl Kind {
    fn from_byte(byte: u8) -> Option<Kind> {
        KINDS.get(usize::from(byte)).copied()
    }

    pub fn byte(self) -> u8 {
        self as u8
    }
}

impl fmt::Display for Kind {
    fn fmt<W: fmt::Write>(&self, f: &mut fmt::Formatter<W>) -> fmt::Result {
        f.write_str(match self {
            Kind::Contact => "contact",
            Kind::Setting => "setting",
            Kind::Clock => "clock",
            Kind::FreshExchange => "fresh exchange",
            Kind::Envelope => "envelope",
            Kind::Inventory => "inventory received",
            Kind::Fetch => "fetch",
            Kind::CustodyCode => "custody code",
            Kind::Tomb => "tomb",
            Kind::Opened => "report opened",
            Kind::Failed => "report failed",
            Kind::StoredTombstone => "stored tombstone",
            Kind::OwnEnvelope => "own envelope",
            Kind::Maintenance => "maintenance",
            Kind::InventoryOfOurs => "inventory of ours",
            Kind::Window => "window",
            Kind::RowBlob => "row blob",
            Kind::RowRead => "row read",
            Kind::Save => "save",
            Kind::Load => "load",
            Kind::Page => "page",
        })
    }
}

// The last number of a refusal; 1 is the first.
pub const LAST_REFUSAL: u8 = Refusal::LogRecord as u8;

// ---- a list

// How many rows and cells its post has room for, and how many calls it has.
#[derive(Clone, Copy)]
pub struct List {
    pub cells: usize,
    pub own_cells: usize,
    pub tombstones: usize,
    pub bad_tags: usize,
    pub calls: usize,
}

const LIST_HEAD: usize = 11;

impl List {
    // The list with which the bytes begin, and those behind it; none where no whole one does, the program has no areas for it, or it has no call.
    // (Each place of a list's head and of the end stands once, as the first lines of this file give them: they have no names.)
    fn first_of(bytes: &[u8]) -> Option<(List, &[u8])>
        ensures { IfSome result (λ p. length p.1.now < length bytes.now) }
    {
        let (head, rest) = bytes.split_first_chunk::<LIST_HEAD>()?;
        let list = List {
            cells: usize::from(octets::get_u16(head, 1)),
            own_cells: usize::from(octets::get_u16(head, 3)),
            tombstones: usize::from(octets::get_u16(head, 5)),
            bad_tags: usize::from(octets::get_u16(head, 7)),
            calls: usize::from(octets::get_u16(head, 9)),
        };
        if list.is_small() && list.calls > 0 {
            return Some((list, rest));
        }
        None
    }

    fn is_small(&self) -> bool {
        self.cells <= MAX_CELLS
            && self.own_cells <= MAX_CELLS
            && self.tombstones <= MAX_TOMBSTONES
            && self.bad_tags <= MAX_BAD_TAGS
    }
}

// ---- the record of a call

// An action row, and the length of the blob of a row that was put.
pub const PUT_WIDTH: usize = ACTION_WIDTH + 2;

// The bytes of a route key, which is the front of an own envelope.
const ROUTE_KEY: usize = 32;

// What the call is made with, and what it must answer.
// (Not an enum of 21 kinds with their fields: all heads are laid out alike, and the call of a kind asks for the fields that it takes. The enum would
// list them a second time.)
#[derive(Clone, Copy)]
pub struct Record<'s> {
    pub kind: Kind,
    head: &'s [u8; HEAD],
    pub front: &'s [u8],
    pub rest: &'s [u8],
    pub replies: &'s [[u8; REPLY_WIDTH]],
    pub actions: &'s [[u8; PUT_WIDTH]],
    pub expected: &'s [u8],
}

impl<'s> Record<'s> {
    // The record with which the bytes begin, and those behind it; none where no whole one does, or one of no call.
    fn first_of(bytes: &'s [u8]) -> Option<(Record<'s>, &'s [u8])>
        ensures { IfSome result (λ p. length p.1.now < length bytes.now) }
    {
        let (head, runs) = bytes.split_first_chunk::<HEAD>()?;
        let kind = Kind::from_byte(head[KIND])?;
        let (front, runs) = runs.split_at_checked(octets::get_u32(head, FRONT) as usize)?;
        let (rest, runs) = runs.split_at_checked(octets::get_u32(head, REST) as usize)?;
        let replies = usize::from(octets::get_u16(head, REPLIES)) * REPLY_WIDTH;
        let (replies, runs) = runs.split_at_checked(replies)?;
        let actions = usize::from(octets::get_u16(head, ACTIONS)) * PUT_WIDTH;
        let (actions, runs) = runs.split_at_checked(actions)?;
        let (expected, behind) = runs.split_at_checked(octets::get_u32(head, BYTES) as usize)?;
        let record = Record {
            kind,
            head,
            front,
            rest,
            replies: replies.as_chunks().0,
            actions: actions.as_chunks().0,
            expected,
        };
        if record.is_call() {
            return Some((record, behind));
        }
        None
    }

    // May the head's bytes be what its kind of call takes them for?
    fn is_call(&self) -> bool {
        let small = self.head[SMALL];
        usize::from(self.head[EXCHANGE]) < EXCHANGES
            && match self.kind {
                Kind::Contact => Verification::from_byte(small).is_some(),
                Kind::Setting => wire::enabled_of(small).is_some(),
                Kind::CustodyCode => Custody::from_code(small).is_some(),
                Kind::OwnEnvelope => Dir::from_label(small).is_some()
                    && self.front.len() == ROUTE_KEY,
                _ => true,
            }
    }

    // (The borrow check takes `self.head()` as a slice, `self.head` not.)
    fn head(&self) -> &'s [u8; HEAD] {
        self.head
    }

    // ---- what the call is made with

    // Which of the exchanges. (`is_call` has tested the byte: it is less than their number. The `min` is for the proofs of callers.)
    pub fn exchange(&self) -> usize
        ensures { result ≤ 2 }
    {
        usize::from(self.head[EXCHANGE]).min(EXCHANGES - 1)
    }

    // Of a contact call. (`is_call` has tested the byte, here, in `enabled`, in `custody` and in `dir`: so the value behind `unwrap_or` is never answered.)
    pub fn verification(&self) -> Verification {
        Verification::from_byte(self.head[SMALL]).unwrap_or(Verification::Compromised)
    }

    // Of a setting.
    pub fn enabled(&self) -> bool {
        wire::enabled_of(self.head[SMALL]).unwrap_or(false)
    }

    // Of a custody code.
    pub fn custody(&self) -> Custody {
        Custody::from_code(self.head[SMALL]).unwrap_or(Custody::Invalid)
    }

    // Of an own envelope.
    pub fn dir(&self) -> Dir {
        Dir::from_label(self.head[SMALL]).unwrap_or(Dir::I)
    }

    pub fn copies(&self) -> u8 {
        self.head[COPIES]
    }

    pub fn generation(&self) -> u8 {
        self.head[GENERATION]
    }

    pub fn lifetime(&self) -> u16 {
        octets::get_u16(self.head(), LIFETIME)
    }

    // Seconds, a slot, or a page.
    pub fn number(&self) -> u64 {
        octets::get_u64(self.head(), NUMBER)
    }

    // A contact or a peer.
    pub fn peer(&self) -> ContactId {
        ContactId(self.number())
    }

    pub fn expiry(&self) -> u32 {
        octets::get_u32(self.head(), EXPIRY)
    }

    pub fn index(&self) -> u32 {
        octets::get_u32(self.head(), INDEX)
    }

    pub fn message(&self) -> u32 {
        octets::get_u32(self.head(), MESSAGE)
    }

    pub fn tag(&self) -> [u8; 16] {
        octets::get_array(self.head(), TAG)
    }

    // A commitment or a secret.
    pub fn second(&self) -> [u8; 16] {
        octets::get_array(self.head(), SECOND)
    }

    // Of an envelope.
    pub fn header(&self) -> Header {
        Header {
            tag: self.tag(),
            c: self.second(),
            expiry_min: self.expiry(),
            copies: self.copies(),
        }
    }

    // Of an own envelope.
    pub fn route_key(&self) -> [u8; ROUTE_KEY] {
        self.front.first_chunk().copied().unwrap_or([0; ROUTE_KEY])
    }

    // ---- how long the areas are that it lends

    pub fn replies_area(&self) -> usize {
        octets::get_u32(self.head(), REPLIES_AREA) as usize
    }

    pub fn prefixes_area(&self) -> usize {
        octets::get_u32(self.head(), PREFIXES_AREA) as usize
    }

    pub fn offers_area(&self) -> usize {
        octets::get_u32(self.head(), OFFERS_AREA) as usize
    }

    pub fn actions_area(&self) -> usize {
        octets::get_u32(self.head(), ACTIONS_AREA) as usize
    }

    pub fn answer_area(&self) -> usize {
        octets::get_u32(self.head(), ANSWER_AREA) as usize
    }

    // ---- what it must answer

    // The number of what the library answers a host.
    pub fn said(&self) -> u8 {
        self.head[SAID]
    }

    // The message key that it names: of an envelope that is ours; zeros otherwise.
    pub fn said_contact(&self) -> u64 {
        octets::get_u64(self.head(), SAID_CONTACT)
    }

    pub fn said_generation(&self) -> u8 {
        self.head[SAID_GENERATION]
    }

    pub fn said_index(&self) -> u32 {
        octets::get_u32(self.head(), SAID_INDEX)
    }

    pub fn searched(&self) -> usize {
        usize::from(octets::get_u16(self.head(), SEARCHED))
    }
}

// ---- a sample

#[derive(Clone, Copy)]
pub enum Entry<'s> {
    List(List),
    Call(Record<'s>),
    End { lists: usize, calls: usize }, // how many there are; nothing stands behind it
}

const END_WIDTH: usize = 7;

impl<'s> Entry<'s> {
    // The entry with which the bytes begin, and those behind it.
    fn first_of(bytes: &'s [u8]) -> Option<(Entry<'s>, &'s [u8])>
        ensures { IfSome result (λ p. length p.1.now < length bytes.now) }
    {
        match bytes.first()? {
            b'L' => {
                let (list, behind) = List::first_of(bytes)?;
                Some((Entry::List(list), behind))
            }
            b'C' => {
                let (record, behind) = Record::first_of(bytes)?;
                Some((Entry::Call(record), behind))
            }
            b'E' => {
                let end = bytes.as_array::<END_WIDTH>()?;
                let lists = usize::from(octets::get_u16(end, 1));
                let calls = octets::get_u32(end, 3) as usize;
                Some((Entry::End { lists, calls }, b""))
            }
            _ => None,
        }
    }
}

// The entries of a sample, one by one, each with its place, as far as they are whole.
#[derive(Drop)]
pub struct Entries<'s> {
    at: usize,
    rest: &'s [u8],
}

const MARK: &[u8; 8] = b"SAMPLE 3";

// Those behind the mark; none where another stands.
pub fn entries_of(sample: &[u8]) -> Entries<'_> {
    Entries {
        at: MARK.len(),
        rest: sample.strip_prefix(MARK).unwrap_or(b""),
    }
}

impl<'s> Iterator for Entries<'s> {
    type Item = (usize, Entry<'s>);

    ghost remaining = { λ s. at_most (length s.rest.now) };

    fn next(&mut self) -> Option<(usize, Entry<'s>)> {
        let at = self.at;
        let (entry, behind) = Entry::first_of(self.rest)?;
        self.at = at.saturating_add(self.rest.len() - behind.len());
        self.rest = behind;
        Some((at, entry))
    }
}

// How many lists and calls a walk has passed, and how many calls of this list are left.
#[derive(Clone, Copy, Default)]
pub struct Walk {
    pub lists: usize,
    pub calls: usize,
    left: usize,
}

impl Walk {
    // Past a list or a call; none where it may not stand there.
    fn past(self, entry: Entry) -> Option<Walk> {
        match entry {
            Entry::List(list) if self.left == 0 => Some(Walk {
                lists: self.lists.saturating_add(1),
                left: list.calls,
                ..self
            }),
            Entry::Call(_) if self.left > 0 => Some(Walk {
                calls: self.calls.saturating_add(1),
                left: self.left - 1,
                ..self
            }),
            _ => None,
        }
    }

    // Has it passed whole lists of some calls, as many as the end says?
    fn ends(self, lists: usize, calls: usize) -> bool {
        self.left == 0 && self.lists == lists && self.calls == calls && calls > 0
    }
}

// The walk over a sample of right shape; or the place of the entry at which its shape is wrong.
pub fn walked(sample: &[u8]) -> Result<Walk, usize> {
    let mut walk = Walk::default();
    let mut whole = entries_of(sample);
    for (at, entry) in &mut whole {
        if let Entry::End { lists, calls } = entry
            && walk.ends(lists, calls)
        {
            return Ok(walk);
        }
        walk = walk.past(entry).ok_or(at)?;
    }
    Err(whole.at)
}
