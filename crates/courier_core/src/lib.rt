// What core.rs has for the courier part: contacts by number, their verification; and the refusals of document 01.
#![tactic(auto)]

ghost use Rattle.std.specs.Prelude.{◌≡◌};
ghost use Rattle.courier_core.specs.Core.{refusal_number, verification_byte, verification_from};

// A contact's number: a type of its own, so that it is not taken for a slot or a message number.
#[derive(Clone, Copy, PartialEq, Eq)]
pub struct ContactId(pub u64);

// What is known of a contact's key, and its byte in a record.
#[derive(Clone, Copy, PartialEq, Eq)]
pub enum Verification {
    Unverified = 0,
    Verified = 1,
    Compromised = 2,
}

impl Verification {
    pub fn byte(self) -> u8
        ensures { result ≡ verification_byte self }
    {
        self as u8
    }

    // The three bytes that there are. A `TryFrom` would need an error type, which says no more than `None`.
    pub fn from_byte(byte: u8) -> Option<Verification>
        ensures { result ≡ verification_from byte }
    {
        match byte {
            0 => Some(Verification::Unverified),
            1 => Some(Verification::Verified),
            2 => Some(Verification::Compromised),
            _ => None,
        }
    }
}

// Why a call is refused, and document 01's number of each.
#[derive(Clone, Copy, PartialEq, Eq)]
pub enum Refusal {
    ShortArea = 1,
    UnknownContact = 2,
    WrongExchange = 3,
    NoCell = 4,
    NoTombstoneRow = 5,
    NoSlot = 6,
    Configuration = 7,
    SavedFile = 8,
    NoBadTagRow = 9,
    MessageNumberTaken = 10,
    OwnLength = 11,
    WindowRows = 12,
    LogRecord = 13,
}

impl Refusal {
    pub fn number(self) -> u8
        ensures { result ≡ refusal_number self }
    {
        self as u8
    }
}
