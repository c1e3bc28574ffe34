// What a peer's list is answered with: fetches, tombs, offers. And our own list, and fetches of a peer.
use crate::step::Step::{
    self, Contact, Deposit, Failed, Fetch, Listed, Maintenance, Minute, Ours, Own, Setting, Stored,
    Title, Tomb, Windowed, WithoutCopies,
};
use crate::tags::Head::{Plain, Sealed};
use crate::tags::Secret;
use crate::tags::Tag::{self, Of, Twin};

// ---- fetches

// The tag 41..01 is bad for the peer, 43..01 for another.
pub const FETCHES: &[Step] = &[
    Title("fetches follow listed order, repeats included; a bad tag: no fetch and no second look"),
    Contact(7),
    Contact(6),
    Contact(5),
    Failed(5, Twin(0x41, 1)),
    Failed(7, Twin(0x43, 1)),
    Windowed(&[Of(0x42), Of(0x41), Of(0x42), Of(0x43), Of(0x99)]),
];

// Tombstones have the tags 41..01 and 42, which is bad for the peer too, and 43..02, of which the first window row has only the prefix.
// Those of 41 and 42 expire at minute 20 and go by maintenance.
pub const TOMBSTONED_ROWS: &[Step] = &[
    Title("a tombstoned tag: no fetch and no second look, and the tomb stays"),
    Contact(7),
    Contact(6),
    Contact(5),
    Failed(5, Of(0x42)),
    Stored(Of(0x42), 20),
    Stored(Twin(0x41, 1), 20),
    Stored(Twin(0x43, 2), 100),
    Minute(20),
    Windowed(&[Of(0x41), Of(0x42), Of(0x43), Of(0x41), Of(0x99)]),
    Maintenance,
    Windowed(&[Of(0x41), Of(0x42), Of(0x43), Of(0x41), Of(0x99)]),
];

// ---- tombs

// Slot 0 turns into a tombstone after slot 1 is stored; both have the prefix. The offer of slot 3 comes last.
pub const TOMBS: &[Step] = &[
    Title("tombs come next, lowest slot first match; then offers"),
    Contact(7),
    Contact(6),
    Contact(5),
    Deposit(7, Sealed(Twin(0x31, 1), 4, 100)),
    Stored(Twin(0x31, 2), 100),
    Stored(Of(0x32), 100),
    Deposit(7, Plain(0x21, 4, 100)),
    Tomb(Twin(0x31, 1), Secret::Carried),
    Windowed(&[Of(0x32), Of(0x32), Of(0x43), Of(0x31), Of(0x99)]),
];

// ---- offers

// Contact 7 was added before 6. Slot 0 went by maintenance, and slot 2 has its cell. Tags fall as slots rise.
pub const OFFERS: &[Step] = &[
    Title(
        "own rows by contact as added and message number, never those for this peer, then carried rows by slot",
    ),
    Contact(7),
    Contact(6),
    Contact(5),
    Own(6, 2),
    Own(6, 1),
    Own(7, 4),
    Own(5, 3),
    Deposit(7, Plain(0x2A, 4, 20)),
    Deposit(7, Plain(0x29, 4, 100)),
    Minute(20),
    Maintenance,
    Deposit(7, Plain(0x28, 4, 100)),
    Deposit(7, Plain(0x27, 4, 100)),
    Listed(&[Of(0x99)]),
    Ours(5),
    Ours(6),
];

// Own rows 1 to 4 and carried rows in slots 0 to 4; tombstones of own row 1, of slot 0, and one that has only the prefix of slot 2.
// Own row 4 and slot 3 have 1 copy, slot 4 none. Listed are the prefixes of own row 2 and of slot 1.
// Then contact 5 fetches tombstoned rows, an own and a carried one, rows of 1 copy and none, and a tag that no row has. Own row 1 is for contact 6.
pub const TOMBSTONED: &[Step] = &[
    Title("a tombstoned tag or a listed prefix is not offered"),
    Contact(6),
    Contact(7),
    Contact(5),
    Own(6, 1),
    Own(6, 2),
    Own(6, 3),
    Setting(1, 1440),
    Own(6, 4),
    Setting(6, 1440),
    Deposit(7, Plain(0x21, 4, 100)),
    Deposit(7, Plain(0x22, 4, 100)),
    Deposit(7, Plain(0x23, 4, 100)),
    Deposit(7, Plain(0x24, 1, 100)),
    Deposit(7, Plain(0x25, 4, 100)),
    WithoutCopies(4),
    Stored(Tag::Own(1), 100),
    Stored(Of(0x21), 100),
    Stored(Twin(0x23, 9), 100),
    Listed(&[Tag::Own(2), Of(0x22), Of(0x99)]),
    Title("inventory writes the prefixes of the same rows, tombstoned too, copies of any number"),
    Ours(5),
    Title("fetch takes no copies off"),
    Fetch(5, Tag::Own(1)),
    Fetch(5, Of(0x21)),
    Fetch(5, Of(0x24)),
    Fetch(5, Of(0x25)),
    Fetch(5, Of(0x26)),
    Fetch(6, Tag::Own(1)),
];
