// Carried rows and tombstones as one list by slot: which row is next. The saved file and the screen page walk along all rows, maintenance along those
// that have expired.
#![tactic(auto)]

ghost use Rattle.std.specs.Prelude.{◌≡◌, ◌+◌, ◌*◌, ◌^◌, ◌<◌, true, false};
ghost use Rattle.octets.specs.Bytes.{part, num};
ghost use Rattle.rows.specs.Rows.{carried_width, tombstone_width};
ghost use Rattle.by_slot.specs.BySlot.{Fitted, Reached, TombstoneFirst, past};

mod held;

pub use held::Held;
use rows::{CARRIED_WIDTH, TOMBSTONE_WIDTH};
use table::Table;

// How far a walk along them is: the next carried row and the next tombstone. (No iterator: what a step of a walk leaves, for the saved file, the page and
// maintenance, is said by what is behind the cursor, which an iterator's item does not tell.)
#[derive(Clone, Copy, Default)]
pub struct Cursor {
    pub carried: usize,
    pub tombstones: usize,
}

impl Cursor {
    // Past the next tombstone, or past the next carried row.
    pub fn past(self, tombstone: bool) -> Cursor
        requires carried { tombstone ≡ false → self.carried + 1 < 2 ^ 64 }
        requires tombstone { tombstone ≡ true → self.tombstones + 1 < 2 ^ 64 }
        ensures { result ≡ past tombstone self }
    {
        let mut next = self;
        if tombstone {
            next.tombstones += 1;
        } else {
            next.carried += 1;
        }
        next
    }
}

impl<'a> Held<'a> {
    // The rows of two tables, each count cut to the rows that fit.
    pub fn fit(
        carried: Table<'a, CARRIED_WIDTH>,
        tombstones: Table<'a, TOMBSTONE_WIDTH>,
    ) -> Held<'a>
        ensures { Fitted carried.entry tombstones.entry result }
    {
        let n = carried.len();
        let m = tombstones.len();
        Held {
            carried: Table {
                area: carried.area,
                count: n,
            },
            tombstones: Table {
                area: tombstones.area,
                count: m,
            },
        }
    }

    // How many there are.
    pub fn len(self) -> usize
        ensures { result ≡ self.entry.carried.count + self.entry.tombstones.count }
    {
        self.carried.count + self.tombstones.count
    }

    // Is the next tombstone before the next carried row? There is one of the two; of equal slots the carried row's comes first.
    pub fn tombstone_first(self, next: Cursor) -> bool
        requires { Reached self next }
        ensures { TombstoneFirst self.entry next (num (part self.entry.carried.area.now (next.carried * carried_width) 8)) (num (part self.entry.tombstones.area.now (next.tombstones * tombstone_width) 8)) result }
    {
        let Cursor {
            carried: p,
            tombstones: q,
        } = next;
        self.carried.count <= p
            || q < self.tombstones.count
                && octets::get_u64(self.tombstones.area, q * TOMBSTONE_WIDTH)
                    < octets::get_u64(self.carried.area, p * CARRIED_WIDTH)
    }
}
