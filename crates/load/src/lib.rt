// The load call: held rows and next slot from a saved file. The whole file is tested first (crate load_tests); then each record is put in
// by its slot.
#![tactic(auto)]

ghost use Rattle.std.specs.Prelude.{◌≡◌, ◌+◌, ◌*◌, ◌<◌, ◌≤◌, length};
ghost use Rattle.octets.specs.Bytes.{part, num};
ghost use Rattle.table.specs.Lists.{position, unwrap_or, insert_at};
ghost use Rattle.table.specs.Rows.{rows, RowsNow};
ghost use Rattle.state.specs.Sizes.{cell_size, carried_record};
ghost use Rattle.rows.specs.Rows.{carried_width};
ghost use Rattle.load.specs.Load.{carried_row, tombstone_row, loaded};
ghost use Rattle.load.specs.Laying.{higher, SlotsAscend, Carries, Room, Loads, Fine, Laid, load_lent, DoesLoad, ciphertext_at};

use courier::Header;
use courier_core::Refusal;
use rows::{
    CARRIED_AREA, CARRIED_WIDTH, CONTACT_AREA, Carried, Device, Row as _, TOMBSTONE_WIDTH,
    Tombstone,
};
use state::Held;
use table::Table;

// Where a carried record has its ciphertext.
const CIPHERTEXT: usize = state::RECORD_HEAD + state::CARRIED_HEAD;

// How many rows are loaded so far.
#[derive(Default, Drop)]
pub struct Counts {
    pub carried: usize,
    pub tombstones: usize,
}

// ---- a row by its slot

// The first row of a higher slot, or the end. The rows stand by slot, and the records of a file that was saved from such rows do too: it is looked
// for from the end.
// (No `rposition` of the row numbers: its closure asks for clauses of its own, and std has no lemma of what a range gives from its end; tried.)
fn place<const W: usize>(table: Table<W>, slot: u64) -> usize
    requires { (table.count * W ≤ length table.area.now) × ((8 ≤ W) × SlotsAscend W table.count table.area.now) }
    ensures { result ≡ unwrap_or table.entry.count (position (higher slot) (rows W table.entry.count table.entry.area.now)) }
{
    for i in (0..table.count).rev() {
        if octets::get_u64(table.area, i * W) <= slot {
            return i + 1;
        }
    }
    0
}

// Puts a row in before the first of a higher slot, by the slot that it starts with.
// (As bytes: the functions of the trait Row do not say that the row's numbers are within their widths, as `bytes` does, and what follows rests on it.)
fn insert_row<const W: usize>(area: &mut [u8], n: usize, row: &[u8; W]) -> usize
    requires { ((8 ≤ W) × SlotsAscend W n area.old) × (n * W + W ≤ length area.old) }
    ensures { RowsNow W area.old
        (insert_at (unwrap_or n (position (higher (num (part row.now 0 8))) (rows W n area.old))) row.now (rows W n area.old))
        result area.new }
{
    let table = Table { area, count: n };
    let i = place::<W>(table, octets::get_u64(row, 0));
    table::insert(area, W, n, i, row)
}

// ---- a row of a decoded blob

fn carried_of(row: state::Carried, slot: u64, len: u16, cell: u16) -> Carried
    ensures { result ≡ carried_row slot len cell row }
{
    let Header {
        tag,
        c,
        expiry_min,
        copies,
    } = row.header;
    Carried {
        slot,
        depositor: row.depositor,
        tag,
        c,
        expiry_min,
        copies,
        len,
        cell,
    }
}

fn tombstone_of(row: state::Tombstone, slot: u64) -> Tombstone
    ensures { result ≡ tombstone_row slot row }
{
    let state::Tombstone { tag, s, expiry_min } = row;
    Tombstone {
        slot,
        tag,
        s,
        expiry_min,
    }
}

// ---- the records, one by one

// Loads a carried record: its row goes to the n that are there, its ciphertext to cell n, the first that none of them names. Answers how many there are.
fn load_carried(
    record: &[u8],
    row: state::Carried,
    n: usize,
    carried: &mut [u8],
    cells: &mut [u8],
) -> usize
    requires { ((ciphertext_at ≤ length «record».now) × (length «record».now ≤ carried_record)) × ((n < 65536) × (((n * carried_width + carried_width ≤ length carried.old) × (n * cell_size + cell_size ≤ length cells.old)) × SlotsAscend carried_width n carried.old)) }
    ensures { Carries «record».now row n carried.old cells.old result carried.new cells.new }
{
    let slot = octets::get_u64(record, state::SLOT);
    let new = carried_of(row, slot, (record.len() - CIPHERTEXT) as u16, n as u16);
    octets::copy_in(cells, n * state::CELL, &record[CIPHERTEXT..]);
    insert_row::<CARRIED_WIDTH>(carried, n, &new.bytes())
}

// Loads a record. (Each area that it changes is lent by itself, as to the call.)
#[tactic(auto, using(load_tests::proofs::BlobLaws::kind_long))]
fn load_record(
    record: &[u8],
    counts: &mut Counts,
    carried: &mut [u8],
    tombstones: &mut [u8],
    cells: &mut [u8],
)
    requires { Room «record».now counts.old carried.old tombstones.old cells.old }
    ensures { Loads «record».now counts.old carried.old tombstones.old cells.old counts.new carried.new tombstones.new cells.new }
{
    match state::decode(&record[state::RECORD_HEAD..]) {
        None => {}
        Some(Held::Carried(row)) => {
            counts.carried = load_carried(record, row, counts.carried, carried, cells);
        }
        Some(Held::Tombstone(row)) => {
            let new = tombstone_of(row, octets::get_u64(record, state::SLOT));
            let n = counts.tombstones;
            counts.tombstones = insert_row::<TOMBSTONE_WIDTH>(tombstones, n, &new.bytes());
        }
    }
}

// Loads all records of a file that was tested.
fn load_records(file: &[u8], carried: &mut [u8], tombstones: &mut [u8], cells: &mut [u8]) -> Counts
    requires { Fine file.now carried.old tombstones.old cells.old }
    ensures { Laid carried.old tombstones.old (loaded cells.old file.now) result carried.new tombstones.new cells.new }
{
    let mut counts = Counts::default();
    for record in load_tests::records(file) {
        load_record(record, &mut counts, carried, tombstones, cells);
    }
    counts
}

// ---- the call

// Replaces held rows and next slot by those of a saved file. A file that is refused changes nothing.
pub fn load(
    device: &mut Device,
    contacts: &[u8; CONTACT_AREA],
    carried: &mut [u8; CARRIED_AREA],
    tombstones: &mut [u8],
    carried_cells: &mut [u8],
    file: &[u8],
) -> Result<(), Refusal>
    ensures { DoesLoad file.now result
        (load_lent device.old contacts.now carried.old tombstones.old carried_cells.old)
        (load_lent device.new contacts.now carried.new tombstones.new carried_cells.new) }
{
    let room = tombstones.len() / TOMBSTONE_WIDTH;
    let contacts = Table {
        area: contacts,
        count: device.contacts,
    };
    load_tests::test_file(file, contacts, carried_cells.len(), room)?;
    let next = octets::get_u64(file, state::SLOT);
    let counts = load_records(file, carried, tombstones, carried_cells);
    device.carried = counts.carried;
    device.tombstones = counts.tombstones;
    device.next_slot = next;
    Ok(())
}
