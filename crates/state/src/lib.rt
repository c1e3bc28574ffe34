// state.rs: the courier configuration, and held rows as blobs, written and read.
#![tactic(auto)]

ghost use Rattle.std.specs.Prelude.{◌≡◌, ◌+◌, min, length, nat_le};
ghost use Rattle.state.specs.Config.{IsConfigured, config_default};
ghost use Rattle.state.specs.Held.{carried, tombstone, carried_head, held_row, RowWritten, carried_in, tombstone_in, held_decode, held_read, reads_back};
ghost use Rattle.state.specs.Reader.{byte_at, array_at, u32_at, u64_at, StandsAt, Steps};

use courier::Header;
use courier_core::{ContactId, Refusal};

// Does this device carry for others, with how many copies at most, and for how many minutes.
#[derive(Clone, Copy)]
pub struct CourierConfig {
    pub enabled: bool,
    pub copies: u8,
    pub lifetime_min: u16,
}

impl CourierConfig {
    pub const COPIES_MIN: u8 = 1;

    pub const COPIES_MAX: u8 = 16;

    pub const LIFETIME_MIN: u16 = 60;

    pub const LIFETIME_MAX: u16 = 10_080;

    pub const DEFAULT_COPIES: u8 = 6;

    pub const DEFAULT_LIFETIME: u16 = 1_440;

    // (Two comparisons each: tried with `contains` of a range, whose value the proof then has to open, twice for each.)
    pub fn new(enabled: bool, copies: u8, lifetime: u16) -> Result<CourierConfig, Refusal>
        ensures { IsConfigured enabled copies lifetime result }
    {
        if copies < CourierConfig::COPIES_MIN
            || copies > CourierConfig::COPIES_MAX
            || lifetime < CourierConfig::LIFETIME_MIN
            || lifetime > CourierConfig::LIFETIME_MAX
        {
            return Err(Refusal::Configuration);
        }
        Ok(CourierConfig {
            enabled,
            copies,
            lifetime_min: lifetime,
        })
    }
}

impl Default for CourierConfig {
    ghost is_default = { λ c. c ≡ config_default };

    fn default() -> CourierConfig {
        CourierConfig {
            enabled: true,
            copies: CourierConfig::DEFAULT_COPIES,
            lifetime_min: CourierConfig::DEFAULT_LIFETIME,
        }
    }
}

// An envelope that is carried for others. Its ciphertext lies beside it.
#[derive(Drop)]
pub struct Carried {
    pub depositor: ContactId,
    pub header: Header,
}

// Proof that a message was delivered, held until its expiry.
#[derive(Drop)]
pub struct Tombstone {
    pub tag: [u8; 16],
    pub s: [u8; 16],
    pub expiry_min: u32,
}

// ---- the form of a row

// The bytes of a ciphertext's cell, of a carried row before its ciphertext, and of the area for any row.
pub const CELL: usize = courier::COURIER_INNER_MAX + chain::TAG_LEN;

pub const CARRIED_HEAD: usize = HEADER_AT + courier::ENVELOPE_HEADER;

pub const BLOB: usize = CARRIED_HEAD + CELL;

// The bytes of a tombstone's row.
pub const TOMBSTONE_ROW: usize = EXPIRY_AT + 4;

// A row's first byte.
const CARRIED_KIND: u8 = 0;

const TOMBSTONE_KIND: u8 = 1;

// Where the fields stand behind it: of a carried row, and of a tombstone.
pub const DEPOSITOR_AT: usize = 1;

pub const HEADER_AT: usize = 9;

const TAG_AT: usize = 1;

const SECRET_AT: usize = 17;

const EXPIRY_AT: usize = 33;

// ---- the form of the saved file, which `saved` writes, and `load_tests` and `load` read

// A file starts with its mark and the next slot; behind them stand its records.
pub const FILE_HEAD: usize = MARK_LEN + 8;

// A record starts with its mark, its slot and the length of its blob; behind them stands the blob.
pub const RECORD_HEAD: usize = LEN + 2;

// Where the number behind a mark stands: the next slot in a file, the slot in a record.
pub const SLOT: usize = MARK_LEN;

// Where a record has the length of its blob.
pub const LEN: usize = SLOT + 8;

pub const MARK_LEN: usize = 2;

// What a file starts with, the record of a carried row, and that of a tombstone.
pub const FILE_MARK: [u8; MARK_LEN] = *b"HN";

pub const CARRIED_MARK: [u8; MARK_LEN] = *b"HC";

pub const TOMBSTONE_MARK: [u8; MARK_LEN] = *b"HT";

// ---- a row, written

// The bytes of a carried row before its ciphertext.
#[tactic(auto, using(crate::proofs::RowLaws::head_made))]
fn carried_head(row: Carried) -> [u8; CARRIED_HEAD]
    ensures { result ≡ carried_head row }
{
    let mut b = [CARRIED_KIND; CARRIED_HEAD];
    octets::put_u64(&mut b, DEPOSITOR_AT, row.depositor.0);
    octets::put_array(&mut b, HEADER_AT, courier::header_bytes(row.header));
    b
}

#[tactic(auto, using(crate::proofs::RowLaws::tombstone_made))]
fn tombstone_bytes(t: Tombstone) -> [u8; TOMBSTONE_ROW]
    ensures { result ≡ held_row (tombstone t) }
{
    let mut b = [TOMBSTONE_KIND; TOMBSTONE_ROW];
    octets::put_array(&mut b, TAG_AT, t.tag);
    octets::put_array(&mut b, SECRET_AT, t.s);
    octets::put_u32(&mut b, EXPIRY_AT, t.expiry_min);
    b
}

// `Held::row` of a carried row: of its ciphertext as much as a cell holds.
pub fn carried_row(row: Carried, ct: &[u8], blob: &mut [u8]) -> Result<usize, Refusal>
    ensures { RowWritten (held_row (carried row ct.now)) blob.old result blob.new }
{
    if blob.len() < BLOB {
        return Err(Refusal::ShortArea);
    }
    let head = carried_head(row);
    let n = CELL.min(ct.len());
    octets::copy_in(blob, 0, &head);
    octets::copy_in(blob, CARRIED_HEAD, &ct[0..n]);
    Ok(CARRIED_HEAD + n)
}

// `Held::row` of a tombstone.
pub fn tombstone_row(t: Tombstone, blob: &mut [u8]) -> Result<usize, Refusal>
    ensures { RowWritten (held_row (tombstone t)) blob.old result blob.new }
{
    if blob.len() < BLOB {
        return Err(Refusal::ShortArea);
    }
    let b = tombstone_bytes(t);
    octets::copy_in(blob, 0, &b);
    Ok(b.len())
}

// ---- what stands at a position of a blob: nothing where it is not all there

#[tactic(auto, using(crate::proofs::ReaderLaws::number_none))]
pub fn byte_at(s: &[u8], at: usize) -> Option<u8>
    ensures { result ≡ byte_at s.now at }
{
    Some(array_at::<1>(s, at)?[0])
}

#[tactic(auto, unfolding(crate::specs::Reader::take_at))]
pub fn array_at<const N: usize>(s: &[u8], at: usize) -> Option<[u8; N]>
    ensures { result ≡ array_at N s.now at }
{
    if !courier::within(s.len(), at, N) {
        return None;
    }
    Some(octets::get_array(s, at))
}

// A function for each type of number, as in state.rs: `from_be_bytes` is a method of each, and no trait of std has it. A sum over the
// bytes would be longer.
#[tactic(auto, using(crate::proofs::ReaderLaws::number_none))]
pub fn u32_at(s: &[u8], at: usize) -> Option<u32>
    ensures { result ≡ u32_at s.now at }
{
    Some(u32::from_be_bytes(array_at(s, at)?))
}

#[tactic(auto, using(crate::proofs::ReaderLaws::number_none))]
pub fn u64_at(s: &[u8], at: usize) -> Option<u64>
    ensures { result ≡ u64_at s.now at }
{
    Some(u64::from_be_bytes(array_at(s, at)?))
}

// Is nothing left?
pub fn end_at(s: &[u8], at: usize) -> bool
    ensures { result ≡ nat_le (length s.now) at }
{
    s.len() <= at
}

// ---- the reader

// state.rs's `Reader`: it refers to a blob and steps along it. Each step is the function above that it calls, and goes past what that gives; where
// the bytes run out it gives nothing and stays.
#[derive(Drop)]
struct Reader<'a> {
    blob: &'a [u8],
    at: usize,
}

impl<'a> Reader<'a> {
    fn new(blob: &'a [u8]) -> Reader<'a>
        ensures { StandsAt result blob.now 0 }
    {
        Reader { blob, at: 0 }
    }

    #[tactic(auto, using(crate::proofs::ReaderLaws::taken))]
    fn byte(&mut self) -> Option<u8>
        ensures gives { result ≡ byte_at self.old.blob.now self.old.at }
        ensures steps { Steps self.old result 1 self.new }
    {
        let byte = byte_at(self.blob, self.at)?;
        self.at += 1;
        Some(byte)
    }

    #[tactic(auto, using(crate::proofs::ReaderLaws::taken))]
    fn array<const N: usize>(&mut self) -> Option<[u8; N]>
        ensures gives { result ≡ array_at N self.old.blob.now self.old.at }
        ensures steps { Steps self.old result N self.new }
    {
        let bytes = array_at(self.blob, self.at)?;
        self.at += N;
        Some(bytes)
    }

    #[tactic(auto, using(crate::proofs::ReaderLaws::taken))]
    fn u32(&mut self) -> Option<u32>
        ensures gives { result ≡ u32_at self.old.blob.now self.old.at }
        ensures steps { Steps self.old result 4 self.new }
    {
        let number = u32_at(self.blob, self.at)?;
        self.at += 4;
        Some(number)
    }

    #[tactic(auto, using(crate::proofs::ReaderLaws::taken))]
    fn u64(&mut self) -> Option<u64>
        ensures gives { result ≡ u64_at self.old.blob.now self.old.at }
        ensures steps { Steps self.old result 8 self.new }
    {
        let number = u64_at(self.blob, self.at)?;
        self.at += 8;
        Some(number)
    }

    // Is nothing left?
    fn end(&self) -> bool
        ensures { result ≡ nat_le (length self.now.blob.now) self.now.at }
    {
        end_at(self.blob, self.at)
    }
}

// ---- a row, read

// A row that was read. A carried row's ciphertext is the blob from CARRIED_HEAD on.
#[derive(Drop)]
pub enum Held {
    Carried(Carried),
    Tombstone(Tombstone),
}

// Does a carried row of such a ciphertext length and expiry read back? Its copies may be any number, 0 too: they may all have been handed on.
// `courier::valid`, which asks for one at least, is for an envelope that comes in.
#[tactic(auto, unfolding(crate::specs::Held::reads_back))]
fn reads_back(len: usize, expiry_min: u32) -> bool
    ensures { result ≡ reads_back len expiry_min }
{
    courier::carried_length(len) && expiry_min > 0
}

// What follows the kind of a carried row: the depositor, and an envelope to the end.
#[tactic(auto, using(crate::proofs::HeldLaws::standing, crate::proofs::HeldLaws::stepped, crate::proofs::HeldLaws::depositor_short, crate::proofs::HeldLaws::envelope_short, crate::proofs::HeldLaws::envelope_fits, crate::proofs::HeldLaws::envelope_unread, crate::proofs::HeldLaws::carried_read))]
fn decode_carried(mut r: Reader) -> Option<Held>
    requires { r.at ≡ 1 }
    ensures { result ≡ held_read (carried_in r.entry.blob.now) }
{
    let depositor = ContactId(r.u64()?);
    let header = courier::decode(r.blob, r.at)?;
    let len = r.blob.len() - CARRIED_HEAD;
    if !reads_back(len, header.expiry_min) {
        return None;
    }
    Some(Held::Carried(Carried { depositor, header }))
}

// What follows the kind of a tombstone.
#[tactic(auto, using(crate::proofs::HeldLaws::standing, crate::proofs::HeldLaws::stepped, crate::proofs::HeldLaws::tombstone_short, crate::proofs::HeldLaws::tombstone_long, crate::proofs::HeldLaws::tombstone_read))]
fn decode_tombstone(mut r: Reader) -> Option<Held>
    requires { r.at ≡ 1 }
    ensures { result ≡ held_read (tombstone_in r.entry.blob.now) }
{
    let tag = r.array()?;
    let s = r.array()?;
    let expiry_min = r.u32()?;
    if !r.end() {
        return None;
    }
    Some(Held::Tombstone(Tombstone { tag, s, expiry_min }))
}

// `Held::decode`, through a reader. Its own parameter is a plain slice, so that no caller has to hold a reader.
#[tactic(auto, using(crate::proofs::HeldLaws::kind_short, crate::proofs::HeldLaws::kind_carried, crate::proofs::HeldLaws::kind_tombstone, crate::proofs::HeldLaws::kind_neither))]
pub fn decode(blob: &[u8]) -> Option<Held>
    ensures { result ≡ held_read (held_decode blob.now) }
{
    let mut r = Reader::new(blob);
    match r.byte()? {
        CARRIED_KIND => decode_carried(r),
        TOMBSTONE_KIND => decode_tombstone(r),
        _ => None,
    }
}
