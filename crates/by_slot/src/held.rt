// The held rows of a device, in two tables.
#![tactic(auto)]

ghost use Rattle.std.specs.Prelude.{◌*◌, ◌≤◌, length};
ghost use Rattle.rows.specs.Rows.{carried_width, tombstone_width};

use rows::{CARRIED_WIDTH, TOMBSTONE_WIDTH};
use table::Table;

// Carried rows and tombstones: each table has as many rows as its count says. (Two tables with their facts beside. `Rows` of crate offers is a
// type for one, but asks a bound of its count besides, which nothing here needs.)
#[derive(Clone, Copy)]
pub struct Held<'a> {
    pub carried: Table<'a, CARRIED_WIDTH>,
    pub tombstones: Table<'a, TOMBSTONE_WIDTH>,
    pub ghost carried_fit: { carried.count * carried_width ≤ length carried.area.now },
    pub ghost tombstones_fit: { tombstones.count * tombstone_width ≤ length tombstones.area.now },
}
