// What a call answers a host of another language: every enum of the calls as one struct of numbers, and a held row that was read.
#![tactic(auto)]

ghost use Rattle.std.specs.Prelude.{◌≡◌};
ghost use Rattle.fetch.specs.Fetch.{fetched_said};
ghost use Rattle.host_answers.specs.HostAnswers.{answered, refusing, done_answer, acted_answer, wrote_answer, envelope_answer, fetched_answer, own_answer, own_row_area, inventory_answer, tomb_answer, blob_answer, carried_row, tombstone_row, no_row, row_of};

use courier_core::Refusal;
use rows::{OWN_WIDTH, Own, Row as _};
use state::{Carried, Held, Tombstone};

// What a call says: a refusal's number (crate courier_core), or one of these.
pub const DONE: u8 = 0;

pub const MALFORMED: u8 = 128;

pub const OURS: u8 = 129;

pub const MISSING: u8 = 130;

pub const NO_ENVELOPE: u8 = 131;

// The answer of every call: what it says, how many rows lie at the front of the reply and action areas, and how many rows or bytes at the front
// of another answer area, how long a fetched ciphertext is, or for how many rows an inventory's end searched the tombstones. Contact,
// generation and index are those of an envelope that is ours. `said` is a number, since C reads the struct.
#[repr(C)]
#[derive(Drop)]
pub struct Answer {
    pub contact: u64,
    pub replies: usize,
    pub actions: usize,
    pub length: usize,
    pub idx: u32,
    pub generation: u8,
    pub said: u8,
}

// A held row that was read, its kind as a number, since C reads the struct. The second run of 16 bytes is a commitment or a secret. A
// carried row's ciphertext is the blob from byte 46 on.
#[repr(C)]
#[derive(Drop)]
pub struct Row {
    pub depositor: u64,
    pub expiry_min: u32,
    pub tag: [u8; 16],
    pub second: [u8; 16],
    pub copies: u8,
    pub kind: u8,
}

impl Row {
    // Of a blob that is no row.
    pub const NONE: u8 = 0;

    pub const CARRIED: u8 = 1;

    pub const TOMBSTONE: u8 = 2;
}

// ---- answers

// `said` is one of the numbers above, or a refusal's: what C reads.
pub fn answer_of(said: u8, replies: usize, actions: usize, length: usize) -> Answer
    ensures { result ≡ answered said replies actions length }
{
    Answer {
        contact: 0,
        replies,
        actions,
        length,
        idx: 0,
        generation: 0,
        said,
    }
}

pub fn refused(why: Refusal) -> Answer
    ensures { result ≡ refusing why }
{
    answer_of(why.number(), 0, 0, 0)
}

// Of a call that says no more where it is done: contact, setting, clock, fresh exchange, load, route tag.
pub fn done_answer(said: Result<(), Refusal>) -> Answer
    ensures { result ≡ done_answer said }
{
    said.map_or_else(refused, |()| answer_of(DONE, 0, 0, 0))
}

// Of a call that lists so many actions: custody code, stored tombstone, maintenance.
pub fn acted_answer(acted: Result<usize, Refusal>) -> Answer
    ensures { result ≡ acted_answer acted }
{
    acted.map_or_else(refused, |actions| answer_of(DONE, 0, actions, 0))
}

// Of a call that writes so many prefixes, rows or bytes: inventory of ours, window, save, page.
pub fn wrote_answer(wrote: Result<usize, Refusal>) -> Answer
    ensures { result ≡ wrote_answer wrote }
{
    wrote.map_or_else(refused, |length| answer_of(DONE, 0, 0, length))
}

// (This and the five that follow match each: what a call tells differs, and so does the number of an answer that tells nothing. One function for
// them would take both, and be no shorter at a call.)
pub fn envelope_answer(said: Result<envelope::Answer, Refusal>) -> Answer
    ensures { result ≡ envelope_answer said }
{
    match said {
        Ok(envelope::Answer::Ours(contact, generation, idx)) => Answer {
            contact: contact.0,
            idx,
            generation,
            ..answer_of(OURS, 0, 0, 0)
        },
        Ok(envelope::Answer::Done(replies, actions)) => answer_of(DONE, replies, actions, 0),
        Err(why) => refused(why),
    }
}

// Of a fetch, which replies so many rows where it finds an envelope. (The number is a parameter as of `tomb_answer`: both definitions speak of the replies
// that lie in the area.)
pub fn fetch_answer(fetched: Result<Option<&[u8]>, Refusal>, replies: usize) -> Answer
    ensures { result ≡ fetched_answer replies (fetched_said fetched.entry) }
{
    match fetched {
        Ok(Some(ciphertext)) => answer_of(DONE, replies, 0, ciphertext.len()),
        Ok(None) => answer_of(MISSING, 0, 0, 0), // no envelope has the tag
        Err(why) => refused(why),
    }
}

pub fn own_answer(made: Result<Option<Own>, Refusal>) -> Answer
    ensures { result ≡ own_answer made }
{
    match made {
        Ok(Some(_)) => answer_of(DONE, 0, 0, 0),
        Ok(None) => answer_of(NO_ENVELOPE, 0, 0, 0),
        Err(why) => refused(why),
    }
}

pub fn inventory_answer(said: Result<inventory::Said, Refusal>) -> Answer
    ensures { result ≡ inventory_answer said }
{
    match said {
        Ok(inventory::Said::Done(replies, searched)) => answer_of(DONE, replies, 0, searched),
        Ok(inventory::Said::Malformed) => answer_of(MALFORMED, 0, 0, 0),
        Err(why) => refused(why),
    }
}

// Of a tomb or a report, which replies so many rows where it is done.
pub fn tomb_answer(said: Result<answers::Said, Refusal>, replies: usize) -> Answer
    ensures { result ≡ tomb_answer replies said }
{
    match said {
        Ok(answers::Said::Done(actions)) => answer_of(DONE, replies, actions, 0),
        Ok(answers::Said::Malformed) => answer_of(MALFORMED, 0, 0, 0),
        Err(why) => refused(why),
    }
}

pub fn blob_answer(blob: Result<Option<usize>, Refusal>) -> Answer
    ensures { result ≡ blob_answer blob }
{
    match blob {
        Ok(Some(length)) => answer_of(DONE, 0, 0, length),
        Ok(None) => answer_of(MISSING, 0, 0, 0), // no row has the slot
        Err(why) => refused(why),
    }
}

// The bytes of an own row where there is one, or those that were there.
pub fn own_row(made: Result<Option<Own>, Refusal>, before: [u8; OWN_WIDTH]) -> [u8; OWN_WIDTH]
    ensures { result ≡ own_row_area before made }
{
    match made {
        Ok(Some(row)) => row.bytes(),
        Ok(None) | Err(_) => before,
    }
}

// ---- a held row
// (An array field goes into a literal through a local: put there straight, the borrow check does not cover it.)

impl From<Carried> for Row {
    ghost from_gives = { λ row r. r ≡ carried_row row };

    fn from(row: Carried) -> Row {
        let header = row.header;
        let tag = header.tag;
        let second = header.c;
        Row {
            depositor: row.depositor.0,
            expiry_min: header.expiry_min,
            tag,
            second,
            copies: header.copies,
            kind: Row::CARRIED,
        }
    }
}

impl From<Tombstone> for Row {
    ghost from_gives = { λ row r. r ≡ tombstone_row row };

    fn from(row: Tombstone) -> Row {
        let tag = row.tag;
        let second = row.s;
        Row {
            depositor: 0,
            expiry_min: row.expiry_min,
            tag,
            second,
            copies: 0,
            kind: Row::TOMBSTONE,
        }
    }
}

// Of a blob that is no row: zeros. (No derived Default: tried; of an array it ensures what holds of each element, and the proof that the array is zeros did not close.)
fn no_row() -> Row
    ensures { result ≡ no_row }
{
    Row {
        depositor: 0,
        expiry_min: 0,
        tag: [0u8; 16],
        second: [0u8; 16],
        copies: 0,
        kind: Row::NONE,
    }
}

impl From<Option<Held>> for Row {
    ghost from_gives = { λ read r. r ≡ row_of read };

    fn from(read: Option<Held>) -> Row {
        match read {
            Some(Held::Carried(row)) => row.into(),
            Some(Held::Tombstone(row)) => row.into(),
            None => no_row(),
        }
    }
}
