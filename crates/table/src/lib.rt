// Tables of rows of any width in a lent area of bytes: one set of functions, and of proofs, for every width.
// A table's rows stand at the front of its area, in the order in which they are read; n says how many there are.
// (The functions take area, width and n, and the methods of Table stand over those that read: what changes an area is no method of a Table, which is
// lent its area to be read. As a const parameter the width would be written at each call all the same, where a Table has it from its type.)
#![tactic(auto)]

ghost use Rattle.std.specs.Prelude.{◌≡◌, ℕ, Bool, List, [], ◌∷◌, ◌++◌, ◌+◌, ◌-◌, ◌*◌, ◌≤◌, ◌<◌, length};
ghost use Rattle.octets.specs.Bytes.{splice, part};
ghost use Rattle.table.specs.Lists.{insert_at, remove_at, replace_at, filter, count_by, position, any};
ghost use Rattle.table.specs.Rows.{rows, has_key, Fits, RowsNow};
ghost use Rattle.table.specs.Tables.{rows_held};
ghost use Rattle.table.specs.Tests.{TakesRows, TestsRows};

mod lent;
pub mod typed;

pub use lent::Table;

// How many rows an area of len bytes has by a count that may be anything. (How many it has room for is `len / width`, written so where a call asks whether one
// more fits.)
#[tactic(auto, using(crate::proofs::RowLaws::fits))]
pub fn fit(len: usize, width: usize, count: usize) -> usize
    requires { 0 < width }
    ensures { Fits len width count result }
{
    count.min(len / width)
}

// The first of the n rows of which the test holds. (Here and in `count` by index: std's chunks_exact asks for a width above 0, which these
// contracts do not ask, and by a rule of the project none may be made to ask more.)
pub fn position<F: Fn(&[u8]) -> bool>(area: &[u8], width: usize, n: usize, test: F) -> Option<usize>
    requires fits { n * width ≤ length area.now }
    requires callable { TakesRows F.Fn test width }
    ensures { (p : List ℕ → Bool) → TestsRows F.Fn test width p → result ≡ position p (rows width n area.now) }
{
    for i in 0..n {
        let at = i * width;
        if test(&area[at..at + width]) {
            return Some(i);
        }
    }
    None
}

// Does the test hold of one of the n rows?
pub fn any<F: Fn(&[u8]) -> bool>(area: &[u8], width: usize, n: usize, test: F) -> bool
    requires fits { n * width ≤ length area.now }
    requires callable { TakesRows F.Fn test width }
    ensures { (p : List ℕ → Bool) → TestsRows F.Fn test width p → result ≡ any p (rows width n area.now) }
{
    position(area, width, n, test).is_some()
}

// Of how many of the n rows does the test hold?
pub fn count<F: Fn(&[u8]) -> bool>(area: &[u8], width: usize, n: usize, test: F) -> usize
    requires fits { n * width ≤ length area.now }
    requires callable { TakesRows F.Fn test width }
    ensures { (p : List ℕ → Bool) → TestsRows F.Fn test width p → result ≡ count_by p (rows width n area.now) }
{
    let mut found = 0;
    for index in 0..n {
        let at = index * width;
        if test(&area[at..at + width]) {
            found += 1;
        }
    }
    found
}

// The first row that has the key at the offset.
pub fn find(area: &[u8], width: usize, n: usize, offset: usize, key: &[u8]) -> Option<usize>
    requires { (n * width ≤ length area.now) × (offset + length key.now ≤ width) }
    ensures { result ≡ position (has_key offset key.now) (rows width n area.now) }
{
    position(area, width, n, |row| octets::same(row, offset, key))
}

// The same, by a walk through every row, from the last to the first. It does not stop at a row that has the key, as `find` does, so its time does
// not tell which row that is: custody looks for a tag or a prefix in the window by it.
pub fn scan(area: &[u8], width: usize, n: usize, offset: usize, key: &[u8]) -> Option<usize>
    requires { (n * width ≤ length area.now) × (offset + length key.now ≤ width) }
    ensures { result ≡ position (has_key offset key.now) (rows width n area.now) }
{
    let mut found = None;
    for i in (0..n).rev() {
        if octets::same(area, i * width + offset, key) {
            found = Some(i);
        }
    }
    found
}

// (Each but `len` and `has` is one call of the function over an area. What a test over rows asks stands at each that takes one: it is the caller's.)
impl<'a, const W: usize> Table<'a, W> {
    // How many rows it has: those that fit.
    pub fn len(self) -> usize
        ensures { Fits (length self.entry.area.now) W self.entry.count result }
    {
        fit(self.area.len(), W, self.count)
    }

    // The first row of which the test holds.
    pub fn position<F: Fn(&[u8]) -> bool>(self, test: F) -> Option<usize>
        requires { TakesRows F.Fn test W }
        ensures { (p : List ℕ → Bool) → TestsRows F.Fn test W p → result ≡ position p (rows_held self.entry) }
    {
        position(self.area, W, self.len(), test)
    }

    // Does the test hold of a row?
    pub fn any<F: Fn(&[u8]) -> bool>(self, test: F) -> bool
        requires { TakesRows F.Fn test W }
        ensures { (p : List ℕ → Bool) → TestsRows F.Fn test W p → result ≡ any p (rows_held self.entry) }
    {
        any(self.area, W, self.len(), test)
    }

    // Of how many rows does the test hold?
    pub fn count_where<F: Fn(&[u8]) -> bool>(self, test: F) -> usize
        requires { TakesRows F.Fn test W }
        ensures { (p : List ℕ → Bool) → TestsRows F.Fn test W p → result ≡ count_by p (rows_held self.entry) }
    {
        count(self.area, W, self.len(), test)
    }

    // The first row that has the key at the offset.
    pub fn find(self, offset: usize, key: &[u8]) -> Option<usize>
        requires { offset + length key.now ≤ W }
        ensures { result ≡ position (has_key offset key.now) (rows_held self.entry) }
    {
        find(self.area, W, self.len(), offset, key)
    }

    // Has a row the key at the offset?
    pub fn has(self, offset: usize, key: &[u8]) -> bool
        requires { offset + length key.now ≤ W }
        ensures { result ≡ any (has_key offset key.now) (rows_held self.entry) }
    {
        self.find(offset, key).is_some()
    }
}

// Puts a row behind the last.
pub fn push(area: &mut [u8], width: usize, n: usize, row: &[u8]) -> usize
    requires { (0 < width) × ((n * width + width ≤ length area.old) × (length row.now ≡ width)) }
    ensures { RowsNow width area.old (rows width n area.old ++ (row.now ∷ [])) result area.new }
{
    octets::copy_in(area, n * width, row);
    n + 1
}

// Makes room for a row at i: the rows from i on move up by one, and the bytes of row i stay.
fn open_row(area: &mut [u8], width: usize, n: usize, i: usize)
    requires { (i ≤ n) × (n * width + width ≤ length area.old) }
    ensures { area.new ≡ splice area.old (i * width + width) (part area.old (i * width) (n * width - i * width)) }
{
    let at = i * width;
    let end = n * width;
    octets::move_up(area, at + width, at, end - at);
}

// Puts a row in at i: those from i on move up by one.
pub fn insert(area: &mut [u8], width: usize, n: usize, i: usize, row: &[u8]) -> usize
    requires { (0 < width) × ((i ≤ n) × ((n * width + width ≤ length area.old) × (length row.now ≡ width))) }
    ensures { RowsNow width area.old (insert_at i row.now (rows width n area.old)) result area.new }
{
    open_row(area, width, n, i);
    octets::copy_in(area, i * width, row);
    n + 1
}

// Takes row i out: those past it move down by one.
pub fn remove(area: &mut [u8], width: usize, n: usize, i: usize) -> usize
    requires { (i < n) × (n * width ≤ length area.old) }
    ensures { RowsNow width area.old (remove_at i (rows width n area.old)) result area.new }
{
    let at = i * width;
    let end = n * width;
    octets::move_down(area, at, at + width, end - at - width);
    n - 1
}

// Puts a row in place of row i.
pub fn replace(area: &mut [u8], width: usize, n: usize, i: usize, row: &[u8])
    requires { (i < n) × ((n * width ≤ length area.old) × (length row.now ≡ width)) }
    ensures { RowsNow width area.old (replace_at i row.now (rows width n area.old)) n area.new }
{
    octets::copy_in(area, i * width, row);
}

// Moves row i down to place k, if it is not there. A loop that calls it for each row that a test keeps, k counting them, takes the others out.
pub fn keep_row(area: &mut [u8], width: usize, k: usize, i: usize)
    requires { (k ≤ i) × (i * width + width ≤ length area.old) }
    ensures { area.new ≡ splice area.old (k * width) (part area.old (i * width) width) }
{
    if k == i {
        return;
    }
    octets::move_down(area, k * width, i * width, width);
}

// Takes out the rows of which the test fails; answers how many are left.
// (std's `retain` is a Vec's; here the rows stand in an area that is lent, and there is no heap.)
pub fn retain<F: Fn(&[u8]) -> bool>(area: &mut [u8], width: usize, n: usize, test: F) -> usize
    requires fits { (0 < width) × (n * width ≤ length area.old) }
    requires callable { TakesRows F.Fn test width }
    ensures { (p : List ℕ → Bool) → TestsRows F.Fn test width p → RowsNow width area.old (filter p (rows width n area.old)) result area.new }
{
    let mut kept = 0;
    for from in 0..n {
        let at = from * width;
        if test(&area[at..at + width]) {
            keep_row(area, width, kept, from);
            kept += 1;
        }
    }
    kept
}
