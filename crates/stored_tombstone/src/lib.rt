// The call "stored tombstone": a host has a tombstone stored, by the steps of crate tombstones.
#![tactic(auto)]

ghost use Rattle.std.specs.Prelude.{length};
ghost use Rattle.model.specs.Calls.{stored_tombstone};
ghost use Rattle.model.specs.Lent.{Does, actions_lent};
ghost use Rattle.tombstones.specs.Tombstones.{tombstones_lent};
ghost use Rattle.stored_tombstone.specs.StoredTombstone.{says_stored};

use courier_core::Refusal;
use rows::Device;
use tombstones::{Tomb, store_choice, store_tombstone};

// A tombstone to be stored: nothing if its tag has one, and at 1,024 or more the one of least expiry goes first.
// It answers how many actions are listed.
// (It is lent what the exported function of crate goosetable is lent, each area and each value by itself.)
pub fn stored_tombstone(
    device: &mut Device,
    tag: [u8; 16],
    s: [u8; 16],
    expiry: u32,
    tombstones: &mut [u8],
    actions: &mut [u8],
) -> Result<usize, Refusal>
    ensures { Does says_stored (stored_tombstone (length actions.old) tag s expiry) result
        (tombstones_lent device.old tombstones.old) (tombstones_lent device.new tombstones.new)
        (actions_lent actions.old) (actions_lent actions.new) }
{
    if answers::short_actions(actions.len(), tombstones.len()) {
        return Err(Refusal::ShortArea);
    }
    let how = store_choice(*device, tag, tombstones)?;
    Ok(store_tombstone(device, how, Tomb { tag, s }, expiry, tombstones, actions, 0))
}
