// What a load tests before it writes: walks through the records of the file.
#![tactic(auto)]

ghost use Rattle.std.specs.Prelude.{◌≡◌, ◌+◌, ◌*◌, ◌<◌, ◌≤◌, true, false, length, nat_lt};
ghost use Rattle.std.specs.Iterator.{YieldsFirstRef, item_count};
ghost use Rattle.table.specs.Lists.{any, count_by};
ghost use Rattle.table.specs.Rows.{rows, has_key};
ghost use Rattle.table.specs.Tables.{rows_in};
ghost use Rattle.rows.specs.Rows.{contact_codec};
ghost use Rattle.rows.specs.Limits.{max_carried};
ghost use Rattle.load_tests.specs.Records.{left, records, counted, SlotsOnce, Gathered, tag_at, key_width};
ghost use Rattle.load_tests.specs.Tests.{fails, kind_tests, row_tests, record_tests, carried_fails, cut_short, carried_count, holds, wrongs, load_tests, tested_as};

use courier_core::{ContactId, Refusal};
use rows::{CONTACT_WIDTH, MAX_CARRIED, MAX_CELLS, MAX_PER_VERIFIED};
use state::{
    CARRIED_MARK, DEPOSITOR_AT, FILE_HEAD, FILE_MARK, HEADER_AT, Held, LEN, RECORD_HEAD, SLOT,
    TOMBSTONE_MARK,
};
use table::Table;

// Where a carried record has its depositor and its tag, and where the tag ends.
const DEPOSITOR: usize = RECORD_HEAD + DEPOSITOR_AT;

const TAG: usize = RECORD_HEAD + HEADER_AT;

const TAG_END: usize = TAG + 16;

// A depositor and a tag, and where the tag stands behind the depositor.
const KEY_WIDTH: usize = TAG_END - DEPOSITOR;

const KEY_TAG: usize = TAG - DEPOSITOR;

// ---- records

// The records at the front of some bytes, one by one, as far as they are whole.
#[derive(Drop)]
pub struct RecordIter<'a> {
    rest: &'a [u8],
}

// Those of a file.
pub fn records(file: &[u8]) -> RecordIter<'_>
    ensures { left result ≡ records file.now }
{
    RecordIter {
        rest: &file[file.len().min(FILE_HEAD)..],
    }
}

impl<'a> Iterator for RecordIter<'a> {
    type Item = &'a [u8];

    ghost next_gives = { YieldsFirstRef left };

    ghost remaining = { item_count left };

    fn next(&mut self) -> Option<&'a [u8]> {
        if self.rest.len() < RECORD_HEAD {
            return None;
        }
        let n = RECORD_HEAD + octets::get_u16(self.rest, LEN) as usize;
        let (record, rest) = self.rest.split_at_checked(n)?;
        self.rest = rest;
        Some(record)
    }
}

// Are bytes left that are no whole record?
pub fn cut_short(file: &[u8]) -> bool
    ensures { result ≡ cut_short file.now }
{
    let all = records(file).map(|record| record.len()).sum::<usize>();
    FILE_HEAD + all < file.len()
}

// Has a record the key at the offset? (Tried with `courier::within` for the first two tests: the proof did not close, as it has the
// sum of `within` to take apart.)
fn has_key(record: &[u8], offset: usize, key: &[u8]) -> bool
    requires { 0 < length key.now }
    ensures { result ≡ has_key offset key.now «record».now }
{
    if record.len() < offset {
        return false;
    }
    if record.len() - offset < key.len() {
        return false;
    }
    octets::same(record, offset, key)
}

// How many records have the key at the offset?
fn count(file: &[u8], offset: usize, key: &[u8]) -> usize
    requires { 0 < length key.now }
    ensures { result ≡ count_by (has_key offset key.now) (records file.now) }
{
    records(file)
        .filter(|record| has_key(record, offset, key))
        .count()
}

// Do the slots ascend along the file? Then no slot is there twice. (At the highest number that a slot can be it says no: the file is walked then.)
// (No `is_sorted_by`: no plainer. It ensures what holds of neighbours, and a lemma would have to say it of any two records; here `low` is above every
// slot so far.)
fn slots_ascend(file: &[u8]) -> bool
    ensures { result ≡ true → SlotsOnce (records file.now) }
{
    let mut low = 0;
    for record in records(file) {
        let slot = octets::get_u64(record, SLOT);
        if slot < low || slot == u64::MAX {
            return false;
        }
        low = slot + 1;
    }
    true
}

// ---- the depositors and tags of the carried records, side by side: each is counted there, not by a walk through the file

// Writes those of each carried record, one row behind the other. Answers how many there are. (A fixed area, and the count that `push` answers: what a
// Vec would hold, with no heap.)
fn gather(file: &[u8], keys: &mut [u8]) -> usize
    requires { (any (fails kind_tests) (records file.now) ≡ false) × (carried_count file.now * key_width ≤ length keys.old) }
    ensures { Gathered file.now keys.new result }
{
    let mut k = 0;
    for record in records(file) {
        if has_key(record, 0, &CARRIED_MARK) {
            k = table::push(keys, KEY_WIDTH, k, &record[DEPOSITOR..TAG_END]);
        }
    }
    k
}

// How many rows of keys have the key at the offset?
fn count_keys(keys: Table<KEY_WIDTH>, offset: usize, key: &[u8]) -> usize
    requires { (keys.count * key_width ≤ length keys.area.now) × (offset + length key.now ≤ key_width) }
    ensures { result ≡ count_by (has_key offset key.now) (rows key_width keys.entry.count keys.entry.area.now) }
{
    keys.count_where(|row| octets::same(row, offset, key))
}

// ---- `SavedFile`, record by record

// Is its mark none, its blob refused, or its blob of another kind than its mark?
fn wrong_kind(record: &[u8]) -> bool
    requires { 12 ≤ length «record».now }
    ensures { result ≡ fails kind_tests «record».now }
{
    match state::decode(&record[RECORD_HEAD..]) {
        None => true,
        Some(Held::Carried(_)) => !has_key(record, 0, &CARRIED_MARK),
        Some(Held::Tombstone(_)) => !has_key(record, 0, &TOMBSTONE_MARK),
    }
}

// Is the mark, the blob or the kind of a record wrong?
fn wrong_kinds(file: &[u8]) -> bool
    ensures { result ≡ any (fails kind_tests) (records file.now) }
{
    records(file).any(|record| wrong_kind(record))
}

// What the row of a record is tested against: all records of its file, the keys of the carried ones, and the contacts. Where the slots ascend along
// the file no slot is there twice.
#[derive(Drop)]
struct Against<'a, 'k> {
    file: &'a [u8],
    next: u64,
    ascending: bool,
    keys: Table<'k, KEY_WIDTH>,
    contacts: Table<'a, CONTACT_WIDTH>,
    ghost once: { ascending ≡ true → SlotsOnce (records file.now) },
    ghost gathered: { Gathered file.now keys.area.now keys.count },
}

impl Against<'_, '_> {
    // A carried record: is its depositor unknown, its tag there twice, or are too many of its depositor?
    fn wrong_carried(&self, record: &[u8]) -> bool
        requires { tag_at + 16 ≤ length «record».now }
        ensures { result ≡ carried_fails (rows_in contact_codec self.now.contacts) (records self.now.file.now) «record».now }
    {
        let id = octets::get_u64(record, DEPOSITOR);
        if !holdings::known(self.contacts, ContactId(id)) {
            return true;
        }
        if 1 < count_keys(self.keys, KEY_TAG, &record[TAG..TAG_END]) {
            return true;
        }
        MAX_PER_VERIFIED < count_keys(self.keys, 0, &record[DEPOSITOR..TAG])
    }

    // Is a slot that of two records? Where slots ascend it is not, and the file is not walked.
    fn slot_twice(&self, slot: &[u8]) -> bool
        requires { length slot.now ≡ 8 }
        ensures { result ≡ nat_lt 1 (count_by (counted false 2 slot.now) (records self.now.file.now)) }
    {
        if self.ascending {
            return false;
        }
        1 < count(self.file, SLOT, slot)
    }

    // Is its slot not below the next, or there twice; or is it a wrong carried one?
    #[tactic(auto, using(crate::proofs::BlobLaws::kind_long))]
    fn wrong_row(&self, record: &[u8]) -> bool
        requires { fails kind_tests «record».now ≡ false }
        ensures { result ≡ fails (row_tests self.now.next (rows_in contact_codec self.now.contacts) (records self.now.file.now)) «record».now }
    {
        if self.next <= octets::get_u64(record, SLOT) {
            return true;
        }
        if self.slot_twice(&record[SLOT..LEN]) {
            return true;
        }
        if has_key(record, 0, &CARRIED_MARK) {
            return self.wrong_carried(record);
        }
        false
    }

    // Is the row of a record of the file wrong?
    fn wrong_rows(&self) -> bool
        requires { any (fails kind_tests) (records self.now.file.now) ≡ false }
        ensures { result ≡ any (fails (row_tests self.now.next (rows_in contact_codec self.now.contacts) (records self.now.file.now))) (records self.now.file.now) }
    {
        records(self.file).any(|record| self.wrong_row(record))
    }
}

// Is a record wrong? Its file has at most as many carried records as their keys have rows here.
fn wrong_records<'a>(file: &'a [u8], next: u64, contacts: Table<'a, CONTACT_WIDTH>) -> bool
    requires { carried_count file.now ≤ max_carried }
    ensures { result ≡ any (fails (record_tests next (rows_in contact_codec contacts.entry) (records file.now))) (records file.now) }
{
    if wrong_kinds(file) {
        return true;
    }
    let mut area = [0u8; MAX_CARRIED * KEY_WIDTH];
    let count = gather(file, &mut area);
    let keys = Table { area: &area, count };
    let against = Against {
        file,
        next,
        ascending: slots_ascend(file),
        keys,
        contacts,
    };
    against.wrong_rows()
}

// ---- a file

// Is it no saved file, or has it records that are wrong?
fn wrong_file(file: &[u8], contacts: Table<CONTACT_WIDTH>) -> bool
    ensures { result ≡ holds (wrongs (rows_in contact_codec contacts.entry) file.now) }
{
    if file.len() < FILE_HEAD {
        return true;
    }
    if !has_key(file, 0, &FILE_MARK) {
        return true;
    }
    if cut_short(file) {
        return true;
    }
    if MAX_CARRIED < count(file, 0, &CARRIED_MARK) {
        return true;
    }
    let next = octets::get_u64(file, SLOT);
    wrong_records(file, next, contacts)
}

// All that a load tests: the file, then the room for its rows. `cells` is how many bytes the area of cells has, `room` how many rows the tombstones' area has.
pub fn test_file(
    file: &[u8],
    contacts: Table<CONTACT_WIDTH>,
    cells: usize,
    room: usize,
) -> Result<(), Refusal>
    ensures { result ≡ tested_as (load_tests (rows_in contact_codec contacts.entry) cells room file.now) }
{
    if wrong_file(file, contacts) {
        return Err(Refusal::SavedFile);
    }
    if table::fit(cells, state::CELL, MAX_CELLS) < count(file, 0, &CARRIED_MARK) {
        return Err(Refusal::NoCell);
    }
    if room < count(file, 0, &TOMBSTONE_MARK) {
        return Err(Refusal::NoTombstoneRow);
    }
    Ok(())
}
