// A table that is lent to be read. (In a file of its own: the definition `rows_held` names the struct, and the file of a struct with a ghost field
// can't name a definition that names it.)
#![tactic(auto)]

ghost use Rattle.std.specs.Prelude.{◌<◌};

// A table that is read: rows of W bytes at the front of an area, by a count that may be anything.
// (It is made by a literal of its two fields. With constructors, methods of Device in contacts, each of some twenty-five callers' proofs had to
// rewrite by the constructor's equations; tried.)
#[derive(Clone, Copy)]
pub struct Table<'a, const W: usize> {
    pub area: &'a [u8],
    pub count: usize,
    pub ghost wide: { 0 < W },
}
