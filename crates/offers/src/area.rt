// Rows at the front of an area that is lent, and how many there are.
#![tactic(auto)]

ghost use Rattle.std.specs.Prelude.{◌≡◌, ◌*◌, ◌^◌, ◌<◌, ◌≤◌, length};
ghost use Rattle.table.specs.Rows.{Fits};

use table::Table;

// The rows of W bytes at the front of an area, of which there are n.
// (Not a `Table`: its count may be anything, and each of its searches cuts it anew. Here it was cut once, and the type says that n rows fit, so that the
// loops over n owe no bound for a row that they read.)
#[derive(Clone, Copy)]
pub struct Rows<'a, const W: usize> {
    pub area: &'a [u8],
    pub n: usize,
    pub ghost in_bounds: { n * W ≤ length area.now },
    pub ghost few: { n < 2 ^ 63 },
}

impl<'a, const W: usize> Rows<'a, W> {
    // Those of a table.
    pub fn fit(table: Table<'a, W>) -> Rows<'a, W>
        ensures fits { Fits (length table.entry.area.now) W table.entry.count result.n }
        ensures same { result.area.now ≡ table.entry.area.now }
    {
        Rows {
            area: table.area,
            n: table.len(),
        }
    }
}
