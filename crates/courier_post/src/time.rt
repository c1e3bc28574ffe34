// Minute = seconds / 60, at most 2^32-1. Lifetime end = minute + lifetime, stopped at 2^32-1.
use crate::post::MINUTE;
use crate::step::Step::{
    self, CarriedRows, Contact, Deposit, Maintenance, Minute, Opened, Own, OwnRows, Second, Send,
    Setting, Title, TombstoneRows,
};
use crate::tags::Head::Plain;
use crate::tags::Tag::Of;

// The last minute, and the second at which it begins.
const LAST: u32 = u32::MAX;

const LAST_BEGINS: u64 = LAST as u64 * MINUTE;

// An envelope is valid while its expiry is after the minute.
pub const MINUTES: &[Step] = &[
    Title("minute = seconds / 60"),
    Contact(7),
    Second(59),
    Send(7, Plain(0x21, 2, 1)),
    Second(60),
    Send(7, Plain(0x22, 2, 1)),
    Second(119),
    Send(7, Plain(0x22, 2, 2)),
    Second(120),
    Send(7, Plain(0x23, 2, 2)),
];

pub const LAST_MINUTE: &[Step] = &[
    Title("minute at most 2^32-1"),
    Contact(7),
    Second(LAST_BEGINS - 1),
    Send(7, Plain(0x21, 2, LAST)),
    Maintenance,
    Second(LAST_BEGINS),
    Send(7, Plain(0x22, 2, LAST)),
    Second(LAST_BEGINS + MINUTE),
    Send(7, Plain(0x22, 2, LAST)),
    Second(u64::MAX),
    Send(7, Plain(0x22, 2, LAST)),
    Maintenance,
];

// The default lifetime is 1,440: it ends at 2^32-2, at 2^32-1, and would end at 2^32.
pub const LIFETIME_END: &[Step] = &[
    Title("lifetime end stopped at 2^32-1"),
    Contact(7),
    Contact(6),
    Minute(LAST - 1441),
    Own(6, 1),
    Deposit(7, Plain(0x21, 2, LAST)),
    Opened(7, Of(0x31), LAST),
    Minute(LAST - 1440),
    Own(6, 2),
    Deposit(7, Plain(0x22, 2, LAST)),
    Opened(7, Of(0x32), LAST),
    Minute(LAST - 1439),
    Own(6, 3),
    Deposit(7, Plain(0x23, 2, LAST)),
    Opened(7, Of(0x33), LAST),
    OwnRows(3),
    CarriedRows,
    TombstoneRows,
    Minute(LAST - 1),
    Maintenance,
    OwnRows(1),
    Minute(LAST),
    Maintenance,
];

pub const ACCEPTED: &[Step] = &[
    Title("accepted: copies and expiry become the lesser of their own and the configured"),
    Contact(7),
    Minute(10),
    Send(7, Plain(0x21, 9, 100000)),
    Send(7, Plain(0x22, 3, 50)),
    Send(7, Plain(0x23, 9, 50)),
    Send(7, Plain(0x24, 3, 100000)),
    Setting(2, 60),
    Send(7, Plain(0x25, 9, 100000)),
    CarriedRows,
];
