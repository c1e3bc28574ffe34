// What ends a row: a tomb, and maintenance.
use crate::step::Step::{
    self, Contact, Deposit, Maintenance, Minute, Own, OwnRows, Setting, Stored, Title, Tomb,
    TombstoneRows,
};
use crate::tags::Head::{Plain, Sealed};
use crate::tags::Secret;
use crate::tags::Tag::{self, Of};

// A carried row and own row 2 have one tag, and different secrets. Tombs come ten minutes later: a tombstone has its row's expiry, not a new one.
pub const TOMBS: &[Step] = &[
    Title(
        "a tomb looks for a carried row first; a wrong secret is malformed; an unknown tag changes nothing",
    ),
    Contact(6),
    Contact(7),
    Deposit(7, Sealed(Tag::Own(2), 4, 100)),
    Own(6, 2),
    Own(6, 3),
    Minute(10),
    Tomb(Tag::Own(2), Secret::Own),
    Tomb(Of(0x99), Secret::Carried),
    Tomb(Tag::Own(2), Secret::Carried),
    Tomb(Tag::Own(2), Secret::Carried),
    Tomb(Tag::Own(2), Secret::Own),
    Tomb(Tag::Own(2), Secret::Own),
    Tomb(Tag::Own(3), Secret::Own),
    TombstoneRows,
];

// Own rows of contacts 7 and 6, carried rows in slots 0 and 2, tombstones in 1 and 3: all until minute 1440, slot 3 until 1441.
pub const MAINTENANCE: &[Step] = &[
    Title(
        "maintenance: own rows expired once are renewed, the second time dropped; then held rows go, by slot",
    ),
    Contact(7),
    Contact(6),
    Own(6, 2),
    Own(6, 1),
    Own(7, 4),
    Deposit(7, Plain(0x21, 4, 1440)),
    Stored(Of(0x31), 1440),
    Deposit(7, Plain(0x22, 4, 1440)),
    Stored(Of(0x32), 1441),
    Minute(1439),
    Maintenance,
    Setting(3, 60),
    Minute(1440),
    Maintenance,
    Own(7, 5),
    OwnRows(4),
    Minute(1500),
    Maintenance,
    OwnRows(4),
];
