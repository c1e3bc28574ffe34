// Tombstones: room for one, which a carried row that turns needs too, and `store_tombstone`: steps that the calls tomb, report opened and stored tombstone share.
#![tactic(auto)]

ghost use Rattle.std.specs.Prelude.{◌≡◌, ◌+◌, ◌*◌, ◌/◌, ◌<◌, ◌≤◌, length};
ghost use Rattle.table.specs.Tables.{rows_in};
ghost use Rattle.rows.specs.Rows.{action_width, tombstone_width, tombstone_codec};
ghost use Rattle.model.specs.Tombs.{all_rows_used as no_row_left};
ghost use Rattle.tombstones.specs.Tombstones.{Least, RoomMade, ChoiceOf, RoomFor, Room, Stores};

use courier_core::Refusal;
use holdings::tombstoned;
use rows::{ACTION_WIDTH, Device, Row, TOMBSTONE_WIDTH, Tombstone};
use table::Table;

// At so many tombstones or more, one goes before another comes.
const MAX_TOMBSTONES: usize = 1024;

// A tag, and the secret that opens the commitment of its envelope.
#[derive(Clone, Copy)]
pub struct Tomb {
    pub tag: [u8; 16],
    pub s: [u8; 16],
}

impl Tomb {
    // The tombstone that a device keeps of it.
    pub fn tombstone(self, slot: u64, expiry_min: u32) -> Tombstone
        ensures { result ≡ record { slot = slot; tag = self.tag; s = self.s; expiry_min = expiry_min } }
    {
        let Tomb { tag, s } = self;
        Tombstone {
            slot,
            tag,
            s,
            expiry_min,
        }
    }
}

// What storing a tombstone does: nothing if its tag has one.
#[derive(Drop)]
pub enum Storing {
    Nothing,
    New,
}

// The tombstone of least expiry, the first among equals; where there is none it is 0.
// (On areas that calls left slots ascend, and the first has the lowest. Nothing asks that of the table.)
// The search begins at place 0 and the greatest expiry: where every row has that, none is below it, and the first is the answer.
// (By `min_by_key` the proof did not close: its contract leaves it to a law over all calls of the closure that the first among equals is answered.)
pub fn least_expiry(tombstones: Table<TOMBSTONE_WIDTH>) -> usize
    ensures { Least tombstones.entry result }
{
    let mut best = 0;
    let mut low = u32::MAX;
    for i in 0..tombstones.len() {
        let e = Tombstone::read(tombstones.area, i * TOMBSTONE_WIDTH).expiry_min;
        if e < low {
            best = i;
            low = e;
        }
    }
    best
}

// ---- room for one tombstone, stored or turned

// Number 5: after any deletion, are all rows of the area used? (At the limit one goes, and its row is free.)
pub fn all_rows_used(tombstones: Table<TOMBSTONE_WIDTH>) -> bool
    ensures { result ≡ no_row_left (length tombstones.entry.area.now / tombstone_width) (rows_in tombstone_codec tombstones.entry) }
{
    let n = tombstones.len();
    n < MAX_TOMBSTONES && tombstones.area.len() / TOMBSTONE_WIDTH <= n
}

// (Here and below, the tombstones' area and the device, which has their number, stand apart: a call is lent each by itself.)
// At the limit the tombstone of least expiry is taken out, and its deletion is listed at a place; answers how many actions are listed.
// (Below the limit the count alone is set: it may have been more than fit, and is then how many there are.)
pub fn make_room(device: &mut Device, tombstones: &mut [u8], actions: &mut [u8], at: usize) -> usize
    requires { at + action_width ≤ length actions.old }
    ensures { RoomMade device.old at tombstones.old actions.old device.new result tombstones.new actions.new }
{
    let table = Table {
        area: tombstones,
        count: device.tombstones,
    };
    let n = table.len();
    if n < MAX_TOMBSTONES {
        device.tombstones = n;
        return 0;
    }
    let i = least_expiry(table);
    let gone = Tombstone::read(tombstones, i * TOMBSTONE_WIDTH);
    device.tombstones = Tombstone::remove(tombstones, device.tombstones, i);
    answers::delete_courier(actions, at, gone.slot);
    1
}

// ---- a tombstone that is stored

// How a tombstone is to be stored, or why it cannot be: `NoTombstoneRow`, `NoSlot`. It reads only.
// (Apart from storing, which cannot fail: what is refused is known before a caller writes rows of its own. One function of both would have to come
// before these in each, and hand the changed device on to them.)
pub fn store_choice(device: Device, tag: [u8; 16], tombstones: &[u8]) -> Result<Storing, Refusal>
    ensures { ChoiceOf device tombstones.now tag result × RoomFor result device tombstones.now }
{
    let table = Table {
        area: tombstones,
        count: device.tombstones,
    };
    if tombstoned(table, tag) {
        return Ok(Storing::Nothing);
    }
    if all_rows_used(table) {
        return Err(Refusal::NoTombstoneRow);
    }
    if device.next_slot == u64::MAX {
        return Err(Refusal::NoSlot);
    }
    Ok(Storing::New)
}

// Stores a tombstone as it was chosen, at the next slot; its actions are listed from a place on, and how many is answered.
pub fn store_tombstone(
    device: &mut Device,
    how: Storing,
    tomb: Tomb,
    expiry: u32,
    tombstones: &mut [u8],
    actions: &mut [u8],
    at: usize,
) -> usize
    requires { Room how device.old tombstones.old × (at + 2 * action_width ≤ length actions.old) }
    ensures { Stores how device.old tomb.tag tomb.s expiry at tombstones.old actions.old device.new result tombstones.new actions.new × (result ≤ 2) }
{
    match how {
        Storing::Nothing => 0,
        Storing::New => {
            let slot = device.next_slot;
            let row = tomb.tombstone(slot, expiry);
            let listed = make_room(device, tombstones, actions, at);
            device.tombstones = Tombstone::push(tombstones, device.tombstones, row);
            device.next_slot += 1;
            answers::put_courier(actions, at + ACTION_WIDTH * listed, slot);
            listed + 1
        }
    }
}
