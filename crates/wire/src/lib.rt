// A log's records: a two-byte mark, a two-byte body length, a body.
#![tactic(auto)]

ghost use Rattle.std.specs.Prelude.{◌≡◌, ◌≤◌, true, length};
ghost use Rattle.wire.specs.declared.Mark.TheVariants as mark;
ghost use Rattle.wire.specs.Log.{mark_of, shaped, fits, mark_at, size_at, head_of, peer_in, values_of, enabled_of};
ghost use Rattle.wire.specs.Read.{read_as, Told};

use courier::Custody;
use courier_core::{ContactId, Refusal, Verification};

// ---- the head

// A record's mark. `Unknown` is one of them and not an Option's None: no body has its shape, so that what refuses a wrong shape refuses it too.
#[derive(Clone, Copy, PartialEq, Eq)]
pub enum Mark {
    Clock,
    Contact,
    Session,
    Envelope,
    Inventory,
    Fetch,
    Custody,
    Tomb,
    Maintenance,
    Setting,
    Unknown,
}

// A record's mark, and the length of its body.
#[derive(Clone, Copy)]
pub struct Head {
    pub mark: Mark,
    pub len: usize,
}

// The bytes of a record before its body, and of the longest body.
pub const HEAD: usize = 4;

pub const BODY_MAX: usize = 8_192;

impl From<u16> for Mark {
    ghost from_gives = { λ letters mark. mark ≡ mark_of letters };

    // The mark that two letters spell, read as a number. (Not an array of two letters: a record's mark is one number to its reader and to the definition.)
    #[tactic(auto, unfolding(crate::specs::Log::mark_of))]
    fn from(letters: u16) -> Mark {
        match letters {
            0x434B => Mark::Clock, // CK
            0x5054 => Mark::Contact, // PT
            0x5353 => Mark::Session, // SS
            0x454E => Mark::Envelope, // EN
            0x4956 => Mark::Inventory, // IV
            0x4645 => Mark::Fetch, // FE
            0x4355 => Mark::Custody, // CU
            0x5442 => Mark::Tomb, // TB
            0x4D54 => Mark::Maintenance, // MT
            0x4346 => Mark::Setting, // CF
            _ => Mark::Unknown,
        }
    }
}

// Has a body of n bytes the shape that its mark asks for? (The lengths are those of document 01's list of records; the fields beside say what they are sums of.)
#[tactic(auto, unfolding(crate::specs::Log::shaped))]
fn is_shaped(mark: Mark, n: usize) -> bool
    ensures { result ≡ shaped mark n }
{
    match mark {
        Mark::Clock => n == 8, // seconds
        Mark::Contact => n == 9, // contact, verification
        Mark::Session => n == 8, // peer
        Mark::Envelope => n >= 45, // peer, header, ciphertext
        Mark::Inventory => n >= 8 && n % 8 == 0, // peer, prefixes
        Mark::Fetch => n == 24, // peer, tag
        Mark::Custody => n == 25, // peer, tag, code
        Mark::Tomb => n == 40, // peer, tag, secret
        Mark::Maintenance => n == 0,
        Mark::Setting => n == 4, // enabled, copies, lifetime
        Mark::Unknown => false,
    }
}

#[tactic(auto, unfolding(crate::specs::Log::fits))]
fn is_fit(mark: Mark, n: usize) -> bool
    ensures { result ≡ fits mark n }
{
    n <= BODY_MAX && is_shaped(mark, n)
}

// The mark and the body's length of the head at the front of some bytes, be it right or wrong.
// (The bytes of a log, which go on behind the head, and not `&[u8; HEAD]`: each caller would cut it, and owe the same bound.)
pub fn mark_at(s: &[u8]) -> Mark
    requires { 4 ≤ length s.now }
    ensures { result ≡ mark_at s.now }
{
    Mark::from(octets::get_u16(s, 0))
}

pub fn size_at(s: &[u8]) -> usize
    requires { 4 ≤ length s.now }
    ensures { result ≡ size_at s.now }
{
    octets::get_u16(s, 2) as usize
}

// The head at the front of some bytes, or None where they end before the record does. A wrong head is refused even if its body is not there.
#[tactic(auto, unfolding(crate::specs::Log::head_of))]
pub fn read_head(s: &[u8]) -> Result<Option<Head>, Refusal>
    ensures { result ≡ head_of s.now }
{
    if s.len() < HEAD {
        return Ok(None);
    }
    let mark = mark_at(s);
    let len = size_at(s);
    if !is_fit(mark, len) {
        return Err(Refusal::LogRecord);
    }
    if len <= s.len() - HEAD {
        return Ok(Some(Head { mark, len }));
    }
    Ok(None)
}

// ---- the body

// What a body says, less its runs of bytes, which stay in the body: a tag, a secret, an envelope, prefixes.
#[derive(Drop)]
pub enum Body {
    Clock {
        seconds: u64,
    },
    Contact {
        id: ContactId,
        verification: Verification,
    },
    Session {
        peer: ContactId,
    },
    Envelope {
        peer: ContactId,
    },
    Inventory {
        peer: ContactId,
    },
    Fetch {
        peer: ContactId,
    },
    Custody {
        peer: ContactId,
        code: Custody,
    },
    Tomb {
        peer: ContactId,
    },
    Maintenance,
    Setting {
        enabled: bool,
        copies: u8,
        lifetime: u16,
    },
}

// The bytes of a peer or a contact, with which the other bodies than those of clock, setting and maintenance begin, and of a tag.
const PEER: usize = 8;

const TAG: usize = 16;

// Where the parts of a body stand that follow its peer or contact.
impl Body {
    pub const VERIFICATION: usize = PEER;

    pub const TAG: usize = PEER;

    pub const CODE: usize = PEER + TAG;

    pub const SECRET: usize = PEER + TAG;

    pub const ENVELOPE: usize = PEER;

    pub const CIPHERTEXT: usize = PEER + courier::ENVELOPE_HEADER;

    pub const PREFIXES: usize = PEER;
}

fn peer_in(body: &[u8]) -> ContactId
    requires { 8 ≤ length body.now }
    ensures { result ≡ peer_in body.now }
{
    ContactId(octets::get_u64(body, 0))
}

#[tactic(auto, using(crate::proofs::BodyLaws::read_some, crate::proofs::BodyLaws::read_none), unfolding(crate::specs::Log::values_of))]
fn setting_in(body: &[u8]) -> Option<Body>
    requires { 4 ≤ length body.now }
    ensures { result ≡ read_as (values_of mark.Setting body.now) }
{
    let enabled = enabled_of(octets::get_u8(body, 0))?;
    Some(Body::Setting {
        enabled,
        copies: octets::get_u8(body, 1),
        lifetime: octets::get_u16(body, 2),
    })
}

// A flag by its byte; none where it is neither 0 nor 1.
#[tactic(auto, unfolding(crate::specs::Log::enabled_of))]
pub fn enabled_of(byte: u8) -> Option<bool>
    ensures { result ≡ enabled_of byte }
{
    match byte {
        0 => Some(false),
        1 => Some(true),
        _ => None,
    }
}

// A body that has its mark's shape.
#[tactic(auto, using(crate::proofs::BodyLaws::as_mark, crate::proofs::BodyLaws::read_some, crate::proofs::BodyLaws::read_none), unfolding(crate::specs::Log::values_of))]
fn values_of(mark: Mark, body: &[u8]) -> Option<Body>
    requires { fits mark (length body.now) ≡ true }
    ensures { result ≡ read_as (values_of mark body.now) }
{
    match mark {
        Mark::Clock => Some(Body::Clock {
            seconds: octets::get_u64(body, 0),
        }),
        Mark::Contact => Some(Body::Contact {
            id: peer_in(body),
            verification: Verification::from_byte(octets::get_u8(body, Body::VERIFICATION))?,
        }),
        Mark::Session => Some(Body::Session {
            peer: peer_in(body),
        }),
        Mark::Envelope => Some(Body::Envelope {
            peer: peer_in(body),
        }),
        Mark::Inventory => Some(Body::Inventory {
            peer: peer_in(body),
        }),
        Mark::Fetch => Some(Body::Fetch {
            peer: peer_in(body),
        }),
        Mark::Custody => Some(Body::Custody {
            peer: peer_in(body),
            code: Custody::from_code(octets::get_u8(body, Body::CODE))?,
        }),
        Mark::Tomb => Some(Body::Tomb {
            peer: peer_in(body),
        }),
        Mark::Maintenance => Some(Body::Maintenance),
        Mark::Setting => setting_in(body),
        Mark::Unknown => None,
    }
}

// What a body says under its mark; nothing where it is wrong.
pub fn read_body(mark: Mark, body: &[u8]) -> Option<Body>
    ensures { Told mark body.now result }
{
    if is_fit(mark, body.len()) {
        values_of(mark, body)
    } else {
        None
    }
}
