// courier.rs: route tags and commitments, the fixed part of an envelope, what a courier takes, and its answer.
#![tactic(auto)]

ghost use Rattle.std.specs.Prelude.{◌≡◌, ◌+◌, ◌≤◌, length, leb};
ghost use Rattle.octets.specs.Bytes.{part};
ghost use Rattle.courier.specs.Tags.{route_tag, delivered_secret, commitment_of, tombstone_matches};
ghost use Rattle.courier.specs.Courier.{header_bytes, header_of, envelope_decode, carried_length, envelope_valid, custody_code, from_code, envelope_header};

use chain::Dir;

// The largest inner length that a courier carries.
pub const COURIER_INNER_MAX: usize = 2048;

// The bytes of an envelope before its ciphertext.
pub const ENVELOPE_HEADER: usize = 37;

// An envelope without its ciphertext. Expiry is in minutes. (A tag, a commitment and a secret have 16 bytes each, and `[u8; 16]` says so everywhere, as
// in courier.rs: a name for the 16 would be longer and say no more.)
#[derive(Clone, Copy)]
pub struct Header {
    pub tag: [u8; 16],
    pub c: [u8; 16],
    pub expiry_min: u32,
    pub copies: u8,
}

// Where the fields stand in the bytes of a header, behind the tag.
impl Header {
    pub const C: usize = 16;

    pub const EXPIRY: usize = 32;

    pub const COPIES: usize = 36;
}

// A courier's answer to an envelope, and its byte.
#[derive(Clone, Copy, PartialEq, Eq)]
pub enum Custody {
    Accepted = 0,
    Full = 1,
    Duplicate = 2,
    Off = 3,
    Invalid = 4,
}

// The MAC of the direction, the generation and the index. (An array and a length, as in data's `Encoded`: the libraries have no heap.)
#[tactic(auto, using(crate::proofs::TagLaws::index_fits), unfolding(kdf::specs::Kdf::key_as, kdf::specs::Kdf::answered))]
pub fn route_tag(key: [u8; 32], dir: Dir, generation: u8, idx: u32) -> [u8; 16]
    ensures { result ≡ route_tag key dir generation idx }
{
    let index = data::leb128(idx);
    let mut input = [0u8; 7];
    input[0] = dir.label();
    input[1] = generation;
    octets::put_array(&mut input, 2, index.bytes);
    kdf::mac(&key, b"route", &input[..2 + index.len]).unwrap()
}

#[tactic(auto, unfolding(kdf::specs::Kdf::key_as, kdf::specs::Kdf::answered, crate::specs::Tags::delivered_secret))]
pub fn delivered(key: [u8; 32]) -> [u8; 16]
    ensures { result ≡ delivered_secret key }
{
    kdf::kdf_16(&key, b"", b"delivered", b"").unwrap()
}

#[tactic(auto, unfolding(octets::specs::Bytes::part, kdf::specs::Kdf::digest_as, kdf::specs::Kdf::answered, crate::specs::Tags::commitment_of))]
pub fn commitment(s: [u8; 16]) -> [u8; 16]
    ensures { result ≡ commitment_of s }
{
    let digest = kdf::hash(b"delivered", &s).unwrap();
    octets::get_array(&digest, 0)
}

// Does s open the commitment c? Every byte is read, whatever came before (of this source; of the machine code see docs/DECISIONS.md, 26).
#[tactic(auto, using(crate::proofs::TagLaws::matched))]
pub fn tombstone_matches(c: [u8; 16], s: [u8; 16]) -> bool
    ensures { result ≡ tombstone_matches c s }
{
    let mine = commitment(s);
    octets::same(&mine, 0, &c)
}

// `Envelope::encode` without the ciphertext.
pub fn header_bytes(h: Header) -> [u8; ENVELOPE_HEADER]
    ensures { result ≡ header_bytes h }
{
    let mut b = [0u8; ENVELOPE_HEADER];
    octets::put_array(&mut b, 0, h.tag);
    octets::put_array(&mut b, Header::C, h.c);
    octets::put_u32(&mut b, Header::EXPIRY, h.expiry_min);
    b[Header::COPIES] = h.copies;
    b
}

// The header whose 37 bytes start at an index.
#[tactic(auto, using(crate::proofs::HeaderLaws::header_read))]
fn header_at(s: &[u8], at: usize) -> Header
    requires { at + envelope_header ≤ length s.now }
    ensures { result ≡ header_of (part s.now at envelope_header) }
{
    Header {
        tag: octets::get_array(s, at),
        c: octets::get_array(s, at + Header::C),
        expiry_min: octets::get_u32(s, at + Header::EXPIRY),
        copies: s[at + Header::COPIES],
    }
}

// Are there n bytes from at on, among len?
pub fn within(len: usize, at: usize, n: usize) -> bool
    ensures { result ≡ leb (at + n) len }
{
    at <= len && n <= len - at
}

// `Envelope::decode` of what follows the first at bytes; the ciphertext is what follows the header.
#[tactic(auto, unfolding(crate::specs::Courier::envelope_decode))]
pub fn decode(s: &[u8], at: usize) -> Option<Header>
    ensures { result ≡ envelope_decode s.now at }
{
    if within(s.len(), at, ENVELOPE_HEADER) {
        Some(header_at(s, at))
    } else {
        None
    }
}

// Does a ciphertext of len bytes seal an inner length that couriers carry?
#[tactic(auto, unfolding(crate::specs::Courier::carried_length))]
pub fn carried_length(len: usize) -> bool
    ensures { result ≡ carried_length len }
{
    chain::inner_of(len).is_some_and(|n| n <= COURIER_INNER_MAX && chain::is_bucket(n))
}

// `Envelope::valid`: a courier takes an envelope with a ciphertext of len bytes at a minute.
#[tactic(auto, unfolding(crate::specs::Courier::envelope_valid))]
pub fn valid(len: usize, copies: u8, expiry: u32, minute: u32) -> bool
    ensures { result ≡ envelope_valid len copies expiry minute }
{
    carried_length(len) && copies > 0 && minute < expiry
}

impl Custody {
    // Its byte in a record.
    pub fn code(self) -> u8
        ensures { result ≡ custody_code self }
    {
        self as u8
    }

    // courier.rs's own name. A `TryFrom` would need an error type, which says no more than `None`.
    #[tactic(auto, unfolding(crate::specs::Courier::from_code))]
    pub fn from_code(code: u8) -> Option<Custody>
        ensures { result ≡ from_code code }
    {
        match code {
            0 => Some(Custody::Accepted),
            1 => Some(Custody::Full),
            2 => Some(Custody::Duplicate),
            3 => Some(Custody::Off),
            4 => Some(Custody::Invalid),
            _ => None,
        }
    }
}
