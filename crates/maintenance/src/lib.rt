// Maintenance: `maintain_couriers`. Own rows expired once are renewed, the second time dropped; then held rows with expiry ≤ minute go.
#![tactic(auto)]

ghost use Rattle.std.specs.Prelude.{◌≡◌, ◌+◌, ◌*◌, ◌/◌, ◌<◌, ◌≤◌, ◌++◌, not, ◌&&◌, map, length, nat_lt};
ghost use Rattle.octets.specs.Bytes.{part};
ghost use Rattle.table.specs.Lists.{filter};
ghost use Rattle.table.specs.Rows.{held, rows, RowsNow};
ghost use Rattle.table.specs.Codec.{table_of};
ghost use Rattle.table.specs.Tables.{rows_in};
ghost use Rattle.rows.specs.Rows.{own_width, tombstone_width, action_width, own_codec, carried_codec, tombstone_codec};
ghost use Rattle.rows.specs.Limits.{action_area};
ghost use Rattle.model.specs.Calls.{maintenance, delete_courier};
ghost use Rattle.model.specs.Maintenance.{own_expired, is_renewed, renew_expired, maintain_own, own_puts, expired_slots};
ghost use Rattle.model.specs.Lent.{Does, actions_lent};
ghost use Rattle.maintenance.specs.Expiry.{live_row, Listed, Moving, Moved, Rewritten, maintained_of, lent_tables};

use by_slot::{Cursor, Held};
use courier_core::Refusal;
use rows::{
    ACTION_WIDTH, CARRIED_AREA, CARRIED_WIDTH, Carried, Device, OWN_AREA, OWN_WIDTH, Own, Row as _,
    TOMBSTONE_WIDTH, Tombstone,
};
use table::Table;

// How far the list of deletions is: the next row of each table, and how many actions are listed.
#[derive(Drop)]
struct Progress {
    next: Cursor,
    listed: usize,
}

// Has a row, whose expiry is at an offset, not expired?
fn is_live(row: &[u8], offset: usize, minute: u32) -> bool
    requires { offset + 4 ≤ length row.now }
    ensures { result ≡ live_row offset minute row.now }
{
    minute < octets::get_u32(row, offset)
}

// ---- held rows

// Takes out the rows whose expiry, at an offset, is not after the minute; answers how many are left.
fn keep_live(area: &mut [u8], width: usize, count: usize, offset: usize, minute: u32) -> usize
    requires { (0 < width) × (offset + 4 ≤ width) }
    ensures { RowsNow width area.old (filter (live_row offset minute) (rows width (held (length area.old) width count) area.old)) result area.new }
{
    let n = table::fit(area.len(), width, count);
    table::retain(area, width, n, |row| is_live(row, offset, minute))
}

// ---- deletions: carried rows and tombstones together, by slot

// Is there a row i, and has it not expired?
fn lives<const W: usize>(table: Table<W>, offset: usize, i: usize, minute: u32) -> bool
    requires { (table.count * W ≤ length table.area.now) × (offset + 4 ≤ W) }
    ensures { result ≡ (nat_lt i table.entry.count && live_row offset minute (part table.entry.area.now (i * W) W)) }
{
    if table.count <= i {
        return false;
    }
    let at = i * W;
    is_live(&table.area[at..at + W], offset, minute)
}

// One row further: a row that has not expired is passed; else the lower slot is listed. (Each branch lists its own, and makes its own step: given the slot
// behind them, or a step by `Cursor::past`, the proof would match on the branch again.)
// (No iterator over all held rows by slot, with a filter behind it: a row that has not expired is passed before slots are compared, and slots of an
// area need not be in order, so that what is listed would stand in another order.)
fn list_one(held: Held, minute: u32, progress: &mut Progress, actions: &mut [u8])
    requires { Moving held progress.old (length actions.old) }
    ensures { Moved minute held.entry actions.old actions.new progress.old progress.new }
{
    if lives::<CARRIED_WIDTH>(held.carried, Carried::EXPIRY, progress.next.carried, minute) {
        progress.next.carried += 1;
        return;
    }
    if lives::<TOMBSTONE_WIDTH>(
        held.tombstones,
        Tombstone::EXPIRY,
        progress.next.tombstones,
        minute,
    ) {
        progress.next.tombstones += 1;
        return;
    }
    if held.tombstone_first(progress.next) {
        let slot = octets::get_u64(
            held.tombstones.area,
            progress.next.tombstones * TOMBSTONE_WIDTH,
        );
        answers::delete_courier(actions, progress.listed * ACTION_WIDTH, slot);
        progress.next.tombstones += 1;
    } else {
        let slot = octets::get_u64(held.carried.area, progress.next.carried * CARRIED_WIDTH);
        answers::delete_courier(actions, progress.listed * ACTION_WIDTH, slot);
        progress.next.carried += 1;
    }
    progress.listed += 1;
}

// Lists the deletions behind k actions; answers how many are listed.
fn list_held(held: Held, minute: u32, k: usize, actions: &mut [u8]) -> usize
    requires { (k + (held.carried.count + held.tombstones.count)) * action_width ≤ length actions.old }
    ensures { Listed actions.old k (map delete_courier (expired_slots minute (rows_in carried_codec held.entry.carried) (rows_in tombstone_codec held.entry.tombstones))) result actions.new }
{
    let next = Cursor::default();
    let mut progress = Progress { next, listed: k };
    for _row in 0..held.len() {
        list_one(held, minute, &mut progress, actions);
    }
    progress.listed
}

// ---- own rows

// Lists an own put for each own row that has expired; answers how many are listed.
// (k counts by hand: the actions stand one behind the other in a lent area, and no Vec is there to count them, since there is no heap.)
fn list_own(own: Table<OWN_WIDTH>, minute: u32, actions: &mut [u8]) -> usize
    requires { held (length own.area.now) own_width own.count * action_width ≤ length actions.old }
    ensures { Listed actions.old 0 (own_puts minute (rows_in own_codec own.entry)) result actions.new }
{
    let n = own.len();
    let mut k = 0;
    for i in 0..n {
        let row = Own::read(own.area, i * OWN_WIDTH);
        if row.expiry_min <= minute {
            answers::put_queued(actions, k * ACTION_WIDTH, row.contact, row.msgno);
            k += 1;
        }
    }
    k
}

// Does the row stay: has it not expired, or only once?
fn stays(row: Own, minute: u32) -> bool
    ensures { result ≡ not (own_expired minute row && is_renewed row) }
{
    row.renewed == 0 || minute < row.expiry_min
}

// The row renewed if it has expired.
fn renew_expired(row: Own, minute: u32, copies: u8, end: u32) -> Own
    ensures { result ≡ renew_expired minute copies end row }
{
    if minute < row.expiry_min {
        return row;
    }
    Own {
        expiry_min: end,
        copies,
        renewed: 1,
        ..row
    }
}

// Takes out the rows expired the second time and renews the other expired ones; answers how many are left.
// (One walk by hand, no less plain: table::retain leaves the rows that stay as they are, so that renewing them would be a second walk by hand behind it. A
// Table is read only: what changes is an area, with the device's count beside.)
fn maintain_own(own: &mut [u8], count: usize, minute: u32, copies: u8, end: u32) -> usize
    ensures { Rewritten own_codec own.old (maintain_own minute copies end (table_of own_codec count own.old)) result own.new }
{
    let n = table::fit(own.len(), OWN_WIDTH, count);
    let mut k = 0;
    for i in 0..n {
        let row = Own::read(own, i * OWN_WIDTH);
        if stays(row, minute) {
            renew_expired(row, minute, copies, end).put(own, k * OWN_WIDTH);
            k += 1;
        }
    }
    k
}

// ---- the call

// Lists what maintenance does: the own puts, then the deletions. Answers how many are listed.
fn list_actions(
    device: Device,
    own: &[u8; OWN_AREA],
    carried: &[u8; CARRIED_AREA],
    tombstones: &[u8],
    minute: u32,
    actions: &mut [u8],
) -> usize
    requires { action_area (length tombstones.now / tombstone_width) ≤ length actions.old }
    ensures { Listed actions.old 0
        (own_puts minute (table_of own_codec device.own own.now)
        ++ map delete_courier (expired_slots minute (table_of carried_codec device.carried carried.now) (table_of tombstone_codec device.tombstones tombstones.now)))
        result actions.new }
{
    let own_rows = Table {
        area: own,
        count: device.own,
    };
    let carried_rows = Table {
        area: carried,
        count: device.carried,
    };
    let tombstone_rows = Table {
        area: tombstones,
        count: device.tombstones,
    };
    let k = list_own(own_rows, minute, actions);
    let held = Held::fit(carried_rows, tombstone_rows);
    list_held(held, minute, k, actions)
}

// Renews and drops own rows, then deletes the held rows that have expired. Answers how many actions are listed.
pub fn maintain_couriers(
    device: &mut Device,
    own: &mut [u8; OWN_AREA],
    carried: &mut [u8; CARRIED_AREA],
    tombstones: &mut [u8],
    actions: &mut [u8],
) -> Result<usize, Refusal>
    ensures { Does maintained_of (maintenance (length actions.old)) result
        (lent_tables device.old own.old carried.old tombstones.old)
        (lent_tables device.new own.new carried.new tombstones.new)
        (actions_lent actions.old) (actions_lent actions.new) }
{
    if answers::short_actions(actions.len(), tombstones.len()) {
        return Err(Refusal::ShortArea);
    }
    let minute = holdings::now_min(device.now_s);
    let listed = list_actions(*device, own, carried, tombstones, minute, actions);
    let end = holdings::lifetime_end(device.now_s, device.courier);
    device.own = maintain_own(own, device.own, minute, device.courier.copies, end);
    device.carried = keep_live(
        carried,
        CARRIED_WIDTH,
        device.carried,
        Carried::EXPIRY,
        minute,
    );
    device.tombstones = keep_live(
        tombstones,
        TOMBSTONE_WIDTH,
        device.tombstones,
        Tombstone::EXPIRY,
        minute,
    );
    Ok(listed)
}
