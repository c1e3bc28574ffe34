// The post's screen page: a heading, and up to 19 held rows by slot, a line each.
#![tactic(auto)]

ghost use Rattle.std.specs.Prelude.{◌≡◌, ◌+◌, ◌*◌, ◌≤◌, min, length};
ghost use Rattle.octets.specs.Bytes.{splice};
ghost use Rattle.model.specs.Calls.{page as page_call};
ghost use Rattle.model.specs.Lent.{Does, bytes_lent};
ghost use Rattle.model.specs.Screen.{page_size, carried_row, tombstone_row, line_front, minutes_left, carried_end, screen_line, heading};
ghost use Rattle.by_slot.specs.BySlot.{Reached};
ghost use Rattle.screen.specs.Page.{Passed, RowPut, RowsFit, RowsPut, page_says, held_in};

use by_slot::{Cursor, Held};
use columns::{put_blanks, put_column, put_hex};
use courier_core::{ContactId, Refusal};
use rows::{
    CARRIED_AREA, CARRIED_WIDTH, Carried, Device, PREFIX_WIDTH, Row as _, TOMBSTONE_WIDTH,
    Tombstone,
};
use table::Table;

// (Each function that writes a line at a place asks for the room of a line: a line of its own would be copied into the area.)
// A line, its end among its bytes; the most rows of a page; the area that is asked for: heading and rows.
pub const LINE: usize = 81;

pub const PAGE_ROWS: usize = 19;

pub const PAGE: usize = LINE + PAGE_ROWS * LINE;

// ---- a line
// (Area and place, as in octets: given a part of the area, each caller would cut it, and owe the same bound.)

// The columns of a line: the slot at 0, the kind's letter behind it, and the others where these say. A blank stands before each but the slot, and
// five before the line end. From the blank before the copies on a tombstone's line is blank.
const PREFIX: usize = NUMBER_WIDTH + 3;

const MINUTES: usize = PREFIX + 2 * PREFIX_WIDTH + 1;

const COPIES_FROM: usize = MINUTES + MINUTES_WIDTH;

const COPIES: usize = COPIES_FROM + 1;

const DEPOSITOR: usize = COPIES + COPIES_WIDTH + 1;

const END: usize = LINE - 1;

// How wide slot and depositor, minutes, and copies are.
const NUMBER_WIDTH: usize = 20;

const MINUTES_WIDTH: usize = 10;

const COPIES_WIDTH: usize = 3;

// Slot, kind and prefix, and a blank behind each. (The kind is the letter that the line has; an enum would only be turned into it.)
fn put_front(area: &mut [u8], at: usize, slot: u64, kind: u8, tag: [u8; 16])
    requires { at + 40 ≤ length area.old }
    ensures { area.new ≡ splice area.old at (line_front slot kind tag) }
{
    put_column(area, at, NUMBER_WIDTH, slot);
    let letter = [b' ', kind, b' '];
    octets::copy_in(area, at + NUMBER_WIDTH, &letter);
    put_hex(area, at + PREFIX, &tag[..PREFIX_WIDTH]);
    put_blanks(area, at + (MINUTES - 1), 1);
}

// Minutes left or, at 0 and below, `past`.
fn put_minutes(area: &mut [u8], at: usize, minute: u32, expiry: u32)
    requires { at + 10 ≤ length area.old }
    ensures { area.new ≡ splice area.old at (minutes_left minute expiry) }
{
    if minute < expiry {
        put_column(area, at, MINUTES_WIDTH, u64::from(expiry - minute));
        return;
    }
    octets::copy_in(area, at, b"      past");
}

// A carried row's copies and depositor, a blank before each, and the line end, behind its minutes.
fn put_carried_end(area: &mut [u8], at: usize, copies: u8, depositor: ContactId)
    requires { at + 81 ≤ length area.old }
    ensures { area.new ≡ splice area.old (at + 50) (carried_end copies depositor.0) }
{
    put_blanks(area, at + COPIES_FROM, 1);
    put_column(area, at + COPIES, COPIES_WIDTH, u64::from(copies));
    put_blanks(area, at + (DEPOSITOR - 1), 1);
    put_column(area, at + DEPOSITOR, NUMBER_WIDTH, depositor.0);
    octets::copy_in(area, at + (DEPOSITOR + NUMBER_WIDTH), b"     \n");
}

// (A function for each kind of row: its letter and what stands behind the minutes differ, and what is the same is two calls.)
fn put_carried(area: &mut [u8], at: usize, row: Carried, minute: u32)
    requires { at + 81 ≤ length area.old }
    ensures { area.new ≡ splice area.old at (screen_line minute (carried_row row)) }
{
    put_front(area, at, row.slot, b'C', row.tag);
    put_minutes(area, at + MINUTES, minute, row.expiry_min);
    put_carried_end(area, at, row.copies, row.depositor);
}

// A tombstone has no copies and no depositor.
fn put_tombstone(area: &mut [u8], at: usize, row: Tombstone, minute: u32)
    requires { at + 81 ≤ length area.old }
    ensures { area.new ≡ splice area.old at (screen_line minute (tombstone_row row)) }
{
    put_front(area, at, row.slot, b'T', row.tag);
    put_minutes(area, at + MINUTES, minute, row.expiry_min);
    put_blanks(area, at + COPIES_FROM, END - COPIES_FROM);
    octets::copy_in(area, at + END, b"\n");
}

// ---- the rows of a page

// How many rows stand on the pages before a page, of so many in all; past the last page all do.
fn rows_before(total: usize, page: u64) -> usize
    ensures { result ≡ min total (page_size * page) }
{
    (PAGE_ROWS as u64).saturating_mul(page).min(total as u64) as usize
}

// Passes k rows. (A branch for each answer: with `past` of the answer itself every comparison would wait for the one before it.)
fn pass_rows(rows: Held, k: usize) -> Cursor
    requires { k ≤ rows.carried.count + rows.tombstones.count }
    ensures { Passed rows.entry k result }
{
    let mut next = Cursor::default();
    for _row in 0..k {
        if rows.tombstone_first(next) {
            next = next.past(true);
        } else {
            next = next.past(false);
        }
    }
    next
}

// Writes the line of the next row. (Each branch makes its own step: behind both, `Cursor::past` would have the proof ask again which it was.)
fn put_next(rows: Held, next: &mut Cursor, minute: u32, area: &mut [u8], at: usize)
    requires { Reached rows next.old × (at + 81 ≤ length area.old) }
    ensures { RowPut rows.entry minute next.old at area.old next.new area.new }
{
    if rows.tombstone_first(*next) {
        let row = Tombstone::read(rows.tombstones.area, next.tombstones * TOMBSTONE_WIDTH);
        put_tombstone(area, at, row, minute);
        next.tombstones += 1;
        return;
    }
    let row = Carried::read(rows.carried.area, next.carried * CARRIED_WIDTH);
    put_carried(area, at, row, minute);
    next.carried += 1;
}

// Writes the lines of so many rows from a place on, behind the heading's. (By index: after `chunks_exact_mut` a proof knows only the length of the area.)
fn put_rows(rows: Held, from: Cursor, count: usize, minute: u32, area: &mut [u8])
    requires { RowsFit rows from count (length area.old) }
    ensures { RowsPut rows.entry minute from count area.old area.new }
{
    let mut next = from;
    for j in 0..count {
        put_next(rows, &mut next, minute, area, LINE + LINE * j);
    }
}

// ---- the call

fn put_heading(area: &mut [u8])
    requires { 81 ≤ length area.old }
    ensures { area.new ≡ splice area.old 0 heading }
{
    let word = b"HELD";
    octets::copy_in(area, 0, word);
    put_blanks(area, word.len(), END - word.len());
    octets::copy_in(area, END, b"\n");
}

// Writes a page, counted from 0; a page past the last is the heading alone.
// (The call is lent what the exported function of crate goosetable is lent: each area by itself.)
pub fn page(
    device: Device,
    number: u64,
    carried: &[u8; CARRIED_AREA],
    tombstones: &[u8],
    area: &mut [u8],
) -> Result<usize, Refusal>
    ensures { Does page_says (page_call (length area.old) number) result
        (held_in device carried.now tombstones.now)
        (held_in device carried.now tombstones.now)
        (bytes_lent area.old) (bytes_lent area.new) }
{
    if area.len() < PAGE {
        return Err(Refusal::ShortArea);
    }
    let carried_rows = Table {
        area: carried,
        count: device.carried,
    };
    let tombstone_rows = Table {
        area: tombstones,
        count: device.tombstones,
    };
    let rows = Held::fit(carried_rows, tombstone_rows);
    let total = rows.len();
    let k = rows_before(total, number);
    let count = PAGE_ROWS.min(total - k);
    let from = pass_rows(rows, k);
    put_heading(area);
    put_rows(rows, from, count, holdings::now_min(device.now_s), area);
    Ok(LINE + LINE * count)
}
