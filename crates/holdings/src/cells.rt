// The cells that rows name: the part of one that is a row's ciphertext, and the first that no row names.
#![tactic(auto)]

ghost use Rattle.std.specs.Prelude.{◌≡◌, ◌+◌, ◌≤◌, not, map, length, position};
ghost use Rattle.table.specs.Rows.{held};
ghost use Rattle.table.specs.Tables.{rows_in};
ghost use Rattle.rows.specs.Rows.{own_codec, carried_codec};
ghost use Rattle.state.specs.Sizes.{cell_size};
ghost use Rattle.model.specs.Cells.{cell_length, ciphertext, free_cell};
ghost use Rattle.holdings.specs.Named.{cells_named, Marked};

use rows::{CARRIED_WIDTH, Carried, MAX_CELLS, OWN_WIDTH, Own};
use state::CELL;
use table::Table;

// ---- a ciphertext

// The length of a ciphertext in a cell area of size bytes: what lies inside the cell, the area, and the cells that count.
pub fn cell_length(size: usize, cell: u16, len: u16) -> usize
    ensures { (result ≡ cell_length size cell len) × (result ≤ cell_size) }
{
    let start = usize::from(cell) * CELL;
    let end = size.min(MAX_CELLS * CELL);
    usize::from(len).min(CELL).min(end.saturating_sub(start))
}

// The ciphertext of a row that names a cell and a length: what lies inside the cell, the area, and the cells that count.
pub fn cell_part(cells: &[u8], cell: u16, len: u16) -> &[u8]
    ensures { result.now ≡ ciphertext cells.now cell len }
{
    let at = (usize::from(cell) * CELL).min(cells.len());
    let n = cell_length(cells.len(), cell, len);
    &cells[at..at + n]
}

// ---- the cell of a new row

// Which of 256 cells the rows name. A row may name any number: one past them marks nothing.
fn mark_cells<const W: usize>(rows: Table<W>, offset: usize) -> [bool; MAX_CELLS]
    requires { offset + 2 ≤ W }
    ensures { Marked (cells_named W offset (held (length rows.entry.area.now) W rows.entry.count) rows.entry.area.now) result }
{
    let mut marks = [false; MAX_CELLS];
    for row in rows.area.chunks_exact(W).take(rows.len()) {
        let cell = usize::from(octets::get_u16(row, offset));
        if cell < MAX_CELLS {
            marks[cell] = true;
        }
    }
    marks
}

fn first_unmarked(marks: &[bool]) -> Option<usize>
    ensures { result ≡ position not marks.now }
{
    marks.iter().position(|marked| !*marked)
}

// The first cell that no row names, in a cell area of size bytes: up to 256 cells count.
// One pass over the rows marks what they name, so that the time grows with the rows and not with their square.
fn free_cell<const W: usize>(rows: Table<W>, offset: usize, size: usize) -> Option<usize>
    requires { offset + 2 ≤ W }
    ensures { result ≡ free_cell size (cells_named W offset (held (length rows.entry.area.now) W rows.entry.count) rows.entry.area.now) }
{
    let marks = mark_cells(rows, offset);
    first_unmarked(&marks[..table::fit(size, CELL, MAX_CELLS)])
}

// Of carried rows and of own rows. (Two functions: each names where its rows have the cell, and is one call.)
pub fn free_carried_cell(carried: Table<CARRIED_WIDTH>, size: usize) -> Option<usize>
    ensures { result ≡ free_cell size (map (λ x. x.cell) (rows_in carried_codec carried.entry)) }
{
    free_cell(carried, Carried::CELL, size)
}

pub fn free_own_cell(own: Table<OWN_WIDTH>, size: usize) -> Option<usize>
    ensures { result ≡ free_cell size (map (λ x. x.cell) (rows_in own_codec own.entry)) }
{
    free_cell(own, Own::CELL, size)
}
