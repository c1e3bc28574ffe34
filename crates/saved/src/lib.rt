// Held rows as blobs: the row blob call, and the saved file.
#![tactic(auto)]

ghost use Rattle.std.specs.Prelude.{◌≡◌, ℕ, ◌+◌, ◌*◌, ◌<◌, ◌≤◌, true, List, ◌++◌, length, nat_le, nat_lt, refl};
ghost use Rattle.octets.specs.Bytes.{be};
ghost use Rattle.table.specs.Lists.{position};
ghost use Rattle.table.specs.Rows.{rows, held};
ghost use Rattle.state.specs.Sizes.{blob_size, file_head, record_head, carried_record, tombstone_record};
ghost use Rattle.rows.specs.Limits.{max_cells};
ghost use Rattle.model.specs.Calls.{row_blob, save as save_call};
ghost use Rattle.model.specs.Lent.{Does, bytes_lent};
ghost use Rattle.model.specs.Saved.{Slotted, carried_held, tombstone_held, held_mark, saved_file};
ghost use Rattle.saved.specs.Blobs.{has_slot, Blobbed, blob_says, held_in};
ghost use Rattle.by_slot.specs.BySlot.{Reached};
ghost use Rattle.saved.specs.Saving.{RecordPut, Recorded, RoomFor, More, left, Rooms, Records, Filled, save_says};

use by_slot::{Cursor, Held};
use courier_core::Refusal;
use rows::{
    CARRIED_AREA, CARRIED_WIDTH, Carried, Device, MAX_CELLS, Row as _, TOMBSTONE_WIDTH, Tombstone,
};
use state::{CARRIED_MARK, FILE_HEAD, FILE_MARK, LEN, MARK_LEN, RECORD_HEAD, SLOT, TOMBSTONE_MARK};
use table::Table;

// The held rows that are saved, and the cells in which the ciphertexts of the carried ones lie.
#[derive(Clone, Copy)]
struct HeldRows<'a> {
    rows: Held<'a>,
    cells: &'a [u8],
}

// How far the writing of a file is: the next row of each table, and where the next record goes.
#[derive(Drop)]
struct Progress {
    next: Cursor,
    at: usize,
}

// ---- rows by slot

// The first row of a table that has the slot, which is the first 8 bytes of a carried row and of a tombstone.
fn slot_place<const W: usize>(table: Table<W>, slot: u64) -> Option<usize>
    requires { 8 ≤ W }
    ensures { result ≡ position (has_slot slot) (rows W (held (length table.entry.area.now) W table.entry.count) table.entry.area.now) }
{
    table.position(|row| octets::get_u64(row, 0) == slot)
}

// ---- a row, written to a blob area

// A held row that is saved: its bytes are those of `Held::row`, and its record's mark is its kind's.
trait Saved: Copy {
    ghost slotted: { List ℕ → Self → Slotted };

    ghost most: { ℕ };

    fn slot(self) -> u64
        ensures { (cells : List ℕ) → (slotted cells self).slot ≡ result };

    fn mark(self) -> [u8; MARK_LEN]
        ensures { (cells : List ℕ) → held_mark (slotted cells self).held ≡ result };

    // The row's bytes go to the front of the area, and how many they are is answered.
    fn blob(self, cells: &[u8], blob: &mut [u8]) -> usize
        requires { blob_size ≤ length blob.old }
        ensures { Blobbed most (slotted cells.now self) blob.old result blob.new };

    // Writes the row's record at a place, and answers where it ends.
    final fn save(self, cells: &[u8], file: &mut [u8], at: usize) -> usize
        requires { at + (record_head + most) ≤ length file.old }
        ensures { Recorded (record_head + most) (slotted cells.now self) at file.old result file.new }
    {
        // (An array and a length: a row is written where any row has room, which the last record of a file need not have, and there is no heap.)
        let mut blob = [0; state::BLOB];
        let n = self.blob(cells, &mut blob);
        put_record(file, at, self.mark(), self.slot(), &blob[0..n])
    }

    ghost fits: { nat_le most 2110 ≡ true };
}

impl Saved for Carried {
    ghost slotted = { carried_held };

    ghost most = { 2110 };

    #[tactic(auto, unfolding(model::specs::Saved::carried_held))]
    fn slot(self) -> u64 {
        self.slot
    }

    #[tactic(auto, unfolding(model::specs::Saved::carried_held))]
    fn mark(self) -> [u8; MARK_LEN] {
        CARRIED_MARK
    }

    fn blob(self, cells: &[u8], blob: &mut [u8]) -> usize {
        let ct = holdings::cells::cell_part(cells, self.cell, self.len);
        let row = state::Carried {
            depositor: self.depositor,
            header: answers::carried_header(self),
        };
        state::carried_row(row, ct, blob).unwrap()
    }

    ghost fits = { refl };
}

// A tombstone has no ciphertext.
impl Saved for Tombstone {
    ghost slotted = { λ cells t. tombstone_held t };

    ghost most = { 37 };

    #[tactic(auto, unfolding(model::specs::Saved::tombstone_held))]
    fn slot(self) -> u64 {
        self.slot
    }

    #[tactic(auto, unfolding(model::specs::Saved::tombstone_held))]
    fn mark(self) -> [u8; MARK_LEN] {
        TOMBSTONE_MARK
    }

    fn blob(self, cells: &[u8], blob: &mut [u8]) -> usize {
        // (An array field is taken out by a pattern: put into the literal straight, the borrow check does not cover it.)
        let Tombstone {
            tag,
            s,
            expiry_min,
            ..
        } = self;
        let row = state::Tombstone { tag, s, expiry_min };
        state::tombstone_row(row, blob).unwrap()
    }

    ghost fits = { refl };
}

// ---- the row blob call

// `Held::row` of the row in a slot: the first of the carried rows and then of the tombstones that has it.
// (The call is lent what the exported function of crate goosetable is lent: each area by itself.)
pub fn row_blob(
    device: Device,
    slot: u64,
    carried: &[u8; CARRIED_AREA],
    tombstones: &[u8],
    carried_cells: &[u8],
    blob: &mut [u8],
) -> Result<Option<usize>, Refusal>
    ensures { Does blob_says (row_blob (length blob.old) slot) result
        (held_in device carried.now tombstones.now carried_cells.now)
        (held_in device carried.now tombstones.now carried_cells.now)
        (bytes_lent blob.old) (bytes_lent blob.new) }
{
    if blob.len() < state::BLOB {
        return Err(Refusal::ShortArea);
    }
    let carried_rows = Table {
        area: carried,
        count: device.carried,
    };
    let tombstone_rows = Table {
        area: tombstones,
        count: device.tombstones,
    };
    match slot_place::<CARRIED_WIDTH>(carried_rows, slot) {
        Some(i) => {
            let row = Carried::read(carried, i * CARRIED_WIDTH);
            Ok(Some(row.blob(carried_cells, blob)))
        }
        None => match slot_place::<TOMBSTONE_WIDTH>(tombstone_rows, slot) {
            Some(i) => {
                let row = Tombstone::read(tombstones, i * TOMBSTONE_WIDTH);
                Ok(Some(row.blob(carried_cells, blob)))
            }
            None => Ok(None),
        },
    }
}

// ---- a record of the saved file

// The bytes of a carried row's record, at most.
const CARRIED_RECORD: usize = RECORD_HEAD + state::BLOB;

// The bytes of a tombstone's record.
const TOMBSTONE_RECORD: usize = RECORD_HEAD + state::TOMBSTONE_ROW;

// A mark and a number.
fn marked(mark: [u8; MARK_LEN], number: u64) -> [u8; FILE_HEAD]
    ensures { result ≡ mark ++ be 8 number }
{
    let mut b = [0; FILE_HEAD];
    octets::put_array(&mut b, 0, mark);
    octets::put_u64(&mut b, SLOT, number);
    b
}

// Writes a record at a place, and answers where it ends.
fn put_record(file: &mut [u8], at: usize, mark: [u8; MARK_LEN], slot: u64, row: &[u8]) -> usize
    requires { (at + record_head + length row.now ≤ length file.old) × (length row.now < 65536) }
    ensures { RecordPut mark slot row.now at file.old result file.new }
{
    let head = marked(mark, slot);
    octets::copy_in(file, at, &head);
    octets::put_u16(file, at + LEN, row.len() as u16);
    octets::copy_in(file, at + RECORD_HEAD, row);
    at + RECORD_HEAD + row.len()
}

// ---- the records, by slot

impl<'a> HeldRows<'a> {
    // Writes the record of the next row. (Each branch makes its own step: behind both, `Cursor::past` would have the proof ask again which it was.)
    fn save_next(self, progress: &mut Progress, file: &mut [u8])
        requires { Reached self.rows progress.old.next × RoomFor self.rows progress.old (length file.old) }
        ensures { More self.entry progress.old file.old progress.new file.new }
    {
        if self.rows.tombstone_first(progress.next) {
            let at = progress.next.tombstones * TOMBSTONE_WIDTH;
            let row = Tombstone::read(self.rows.tombstones.area, at);
            progress.at = row.save(self.cells, file, progress.at);
            progress.next.tombstones += 1;
            return;
        }
        let at = progress.next.carried * CARRIED_WIDTH;
        let row = Carried::read(self.rows.carried.area, at);
        progress.at = row.save(self.cells, file, progress.at);
        progress.next.carried += 1;
    }

    // Writes the records of all rows behind the mark and the next slot, and answers where they end.
    fn save_rows(self, file: &mut [u8]) -> usize
        requires { Rooms self.rows (length file.old) }
        ensures { Records (left self.entry 0 0) file.old result file.new }
    {
        let mut progress = Progress {
            next: Cursor::default(),
            at: FILE_HEAD,
        };
        for _row in 0..self.rows.len() {
            self.save_next(&mut progress, file);
        }
        progress.at
    }

    // Writes the file: its mark and the next slot, then the records.
    fn save_file(self, next: u64, file: &mut [u8]) -> usize
        requires { Rooms self.rows (length file.old) }
        ensures { Filled (saved_file next (left self.entry 0 0)) file.old result file.new }
    {
        let head = marked(FILE_MARK, next);
        octets::copy_in(file, 0, &head);
        self.save_rows(file)
    }
}

// ---- the save call

// Is the area for a file too short, with so many cells and tombstone rows? The product of the rows may be past what a usize holds.
fn short_file(file: usize, cells: usize, room: usize) -> bool
    requires { cells ≤ max_cells }
    ensures { result ≡ nat_lt file (file_head + carried_record * cells + tombstone_record * room) }
{
    let base = FILE_HEAD + CARRIED_RECORD * cells;
    if file < base {
        return true;
    }
    (file - base) / TOMBSTONE_RECORD < room
}

// Writes the saved file: the next slot, and the held rows by slot. Carried rows count as far as there are cells.
// (Areas as in `row_blob`.)
pub fn save(
    device: Device,
    carried: &[u8; CARRIED_AREA],
    tombstones: &[u8],
    carried_cells: &[u8],
    file: &mut [u8],
) -> Result<usize, Refusal>
    ensures { Does save_says (save_call (length file.old)) result
        (held_in device carried.now tombstones.now carried_cells.now)
        (held_in device carried.now tombstones.now carried_cells.now)
        (bytes_lent file.old) (bytes_lent file.new) }
{
    let cells = table::fit(carried_cells.len(), state::CELL, MAX_CELLS);
    let room = tombstones.len() / TOMBSTONE_WIDTH;
    if short_file(file.len(), cells, room) {
        return Err(Refusal::ShortArea);
    }
    let carried_rows = Table {
        area: carried,
        count: device.carried.min(cells),
    };
    let tombstone_rows = Table {
        area: tombstones,
        count: device.tombstones,
    };
    let rows = Held::fit(carried_rows, tombstone_rows);
    let held = HeldRows {
        rows,
        cells: carried_cells,
    };
    Ok(held.save_file(device.next_slot, file))
}
