// An expired row is still offered, fetched and counted until maintenance.
use crate::step::Step::{
    self, Contact, Deposit, Fetch, Listed, Maintenance, Minute, Own, Send, Setting, Stored, Title,
};
use crate::tags::Head::{Plain, Sealed};
use crate::tags::Tag::{self, Of};

// An own row until minute 60; slot 0 and the tombstone in slot 1 until 100; fifteen more of contact 7, which have 1 copy and live: it has
// its quota of 16 then. Codes of what it sends: 2 Duplicate for the tag of an own, a carried and a tombstone row, 1 Full for the quota.
pub const EXPIRED: &[Step] = &[
    Contact(7),
    Contact(6),
    Contact(5),
    Setting(6, 60),
    Own(6, 1),
    Setting(6, 1440),
    Deposit(7, Plain(0x21, 4, 100)),
    Stored(Of(0x31), 100),
    Deposit(7, Plain(0, 1, 1440)),
    Deposit(7, Plain(1, 1, 1440)),
    Deposit(7, Plain(2, 1, 1440)),
    Deposit(7, Plain(3, 1, 1440)),
    Deposit(7, Plain(4, 1, 1440)),
    Deposit(7, Plain(5, 1, 1440)),
    Deposit(7, Plain(6, 1, 1440)),
    Deposit(7, Plain(7, 1, 1440)),
    Deposit(7, Plain(8, 1, 1440)),
    Deposit(7, Plain(9, 1, 1440)),
    Deposit(7, Plain(10, 1, 1440)),
    Deposit(7, Plain(11, 1, 1440)),
    Deposit(7, Plain(12, 1, 1440)),
    Deposit(7, Plain(13, 1, 1440)),
    Deposit(7, Plain(14, 1, 1440)),
    Minute(200),
    Title("an expired row is still offered and fetched"),
    Listed(&[Of(0x31)]),
    Fetch(5, Of(0x21)),
    Fetch(5, Tag::Own(1)),
    Title("an expired row is still counted until maintenance"),
    Send(7, Plain(0x21, 4, 400)),
    Send(7, Plain(0x31, 4, 400)),
    Send(7, Sealed(Tag::Own(1), 4, 400)),
    Send(7, Plain(0x29, 4, 400)),
    Maintenance,
    Send(7, Plain(0x31, 4, 400)),
    Send(7, Plain(0x29, 4, 400)),
];
