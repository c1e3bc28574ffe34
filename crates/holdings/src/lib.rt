// The tables of a device, searched and counted: contacts, own and carried rows, tombstones, bad tags; and the clock in minutes, by which their rows expire.
// What two calls ask of one table stands here, so that no call stands on another. The cells that rows name, and the window, are modules.
// (A table that is changed by one row is changed by the functions of its row's type, `rows` and `table::typed`.)
#![tactic(auto)]

ghost use Rattle.std.specs.Prelude.{◌≡◌, ◌+◌, ◌*◌, ◌<◌, ◌≤◌, not, ◌&&◌, length, ◌==◌, ◌||◌, nat_lt};
ghost use Rattle.octets.specs.Bytes.{part, num, same_bytes};
ghost use Rattle.table.specs.Lists.{position, unwrap_or};
ghost use Rattle.table.specs.Rows.{held};
ghost use Rattle.table.specs.Codec.{table_of, TableNow};
ghost use Rattle.table.specs.Tables.{rows_in};
ghost use Rattle.rows.specs.Rows.{contact_width, contact_of, contact_codec, own_codec, carried_codec, tombstone_width, tombstone_codec, bad_tag_width, bad_tag_codec};
ghost use Rattle.model.specs.Contacts.{now_min, lifetime_end, contact_place, known as known_of, is_verified, added_before};
ghost use Rattle.model.specs.Custody.{own_of_tag, carried_of_tag, deposited};
ghost use Rattle.model.specs.Tombs.{tombstoned as some_tombstone, insert_by_slot};
ghost use Rattle.model.specs.Window.{is_bad};
ghost use Rattle.holdings.specs.Searches.{for_others, higher};

pub mod cells;
pub mod window;

use courier_core::{ContactId, Verification};
use rows::{
    BAD_TAG_WIDTH, BadTag, CARRIED_WIDTH, CONTACT_WIDTH, Carried, Contact, OFFER_AREA, OWN_WIDTH,
    Own, PREFIX_AREA, Row, TOMBSTONE_WIDTH, Tombstone,
};
use state::CourierConfig;
use table::Table;

// ---- time

// The seconds of a minute.
pub const MINUTE: u64 = 60;

// (A `min` and a cast: `try_from` and `unwrap_or` say it no shorter.)
#[tactic(auto, unfolding(model::specs::Contacts::now_min))]
pub fn now_min(seconds: u64) -> u32
    ensures { result ≡ now_min seconds }
{
    (seconds / MINUTE).min(u32::MAX as u64) as u32
}

// (Of the clock and the settings, as the model has it: of the whole device, the proofs of its callers would speak of these two all the same.)
#[tactic(auto, unfolding(model::specs::Contacts::lifetime_end))]
pub fn lifetime_end(seconds: u64, config: CourierConfig) -> u32
    ensures { result ≡ lifetime_end seconds config }
{
    now_min(seconds).saturating_add(u32::from(config.lifetime_min))
}

// ---- contacts

// Where a contact stands.
pub fn contact_place(contacts: Table<CONTACT_WIDTH>, id: ContactId) -> Option<usize>
    ensures { result ≡ contact_place (rows_in contact_codec contacts.entry) id }
{
    contacts.position(|row| ContactId(octets::get_u64(row, 0)) == id)
}

// (Each call that is refused for an unknown contact tests it and names the refusal, where document 01 has it among the others: by a function that answers the
// refusal, each proof would go over one answer more.)
pub fn known(contacts: Table<CONTACT_WIDTH>, id: ContactId) -> bool
    ensures { result ≡ known_of (rows_in contact_codec contacts.entry) id }
{
    contact_place(contacts, id).is_some()
}

// Is the contact in row i verified?
fn verified_at(contacts: &[u8], i: usize) -> bool
    requires { i * contact_width + contact_width ≤ length contacts.now }
    ensures { result ≡ (contact_of (part contacts.now (i * contact_width) contact_width)).verification == 1 }
{
    Contact::read(contacts, i * CONTACT_WIDTH).verification == Verification::Verified.byte()
}

#[tactic(auto, using(crate::proofs::FindLaws::place_fits, crate::proofs::FindLaws::verified_some, crate::proofs::FindLaws::verified_none))]
pub fn is_verified(contacts: Table<CONTACT_WIDTH>, id: ContactId) -> bool
    ensures { result ≡ is_verified (rows_in contact_codec contacts.entry) id }
{
    contact_place(contacts, id).is_some_and(|i| verified_at(contacts.area, i))
}

// How many contacts were added before this one; all, if it is not known.
pub fn added_before(contacts: Table<CONTACT_WIDTH>, id: ContactId) -> usize
    ensures { result ≡ added_before (rows_in contact_codec contacts.entry) id }
{
    contact_place(contacts, id).unwrap_or(contacts.len())
}

// ---- rows by their tag

// The first own row with the tag. (Of carried rows it is `carried_of_tag`: each is one search, and its contract names its own rows.)
pub fn own_of_tag(own: Table<OWN_WIDTH>, tag: [u8; 16]) -> Option<usize>
    ensures { result ≡ position (own_of_tag tag) (rows_in own_codec own.entry) }
{
    own.find(Own::TAG, &tag)
}

// The first own row with the tag that is not for the peer.
pub fn own_for_others(own: Table<OWN_WIDTH>, peer: ContactId, tag: [u8; 16]) -> Option<usize>
    ensures { result ≡ position (for_others peer tag) (rows_in own_codec own.entry) }
{
    own.position(|row| ContactId(octets::get_u64(row, 0)) != peer
        && octets::same(row, Own::TAG, &tag))
}

// The first carried row with the tag.
pub fn carried_of_tag(carried: Table<CARRIED_WIDTH>, tag: [u8; 16]) -> Option<usize>
    ensures { result ≡ position (carried_of_tag tag) (rows_in carried_codec carried.entry) }
{
    carried.find(Carried::TAG, &tag)
}

// Has one of the tombstones the tag?
pub fn tombstoned(tombstones: Table<TOMBSTONE_WIDTH>, tag: [u8; 16]) -> bool
    ensures { result ≡ some_tombstone (rows_in tombstone_codec tombstones.entry) tag }
{
    tombstones.has(Tombstone::TAG, &tag)
}

// ---- bad tags

// Is it the row of a tag that is bad for a peer?
fn is_bad_row(row: &[u8], peer: ContactId, tag: [u8; 16]) -> bool
    requires { bad_tag_width ≤ length row.now }
    ensures { result ≡ (num (part row.now 0 8) == peer.0 && same_bytes (part row.now 8 16) tag) }
{
    ContactId(octets::get_u64(row, 0)) == peer && octets::same(row, BadTag::TAG, &tag)
}

// Is a tag bad for a peer?
pub fn is_bad(bad: Table<BAD_TAG_WIDTH>, peer: ContactId, tag: [u8; 16]) -> bool
    ensures { result ≡ is_bad (rows_in bad_tag_codec bad.entry) peer tag }
{
    bad.any(|row| is_bad_row(row, peer, tag))
}

// ---- rows by depositor, and by slot

// How many carried rows a peer has deposited; an expired one counts until maintenance.
pub fn deposited(carried: Table<CARRIED_WIDTH>, peer: ContactId) -> usize
    ensures { result ≡ deposited (rows_in carried_codec carried.entry) peer }
{
    carried.count_where(|row| ContactId(octets::get_u64(row, Carried::DEPOSITOR)) == peer)
}

// The first tombstone of a higher slot, or the end.
// (`load::place` has the same from the end: it asks that the rows that are there rise by slot, as load puts them. Here slots may stand in any order, and the
// first row of a higher slot is meant.)
fn place_by_slot(tombstones: Table<TOMBSTONE_WIDTH>, slot: u64) -> usize
    ensures { result ≡ unwrap_or (held (length tombstones.entry.area.now) tombstone_width tombstones.entry.count) (position (higher slot) (rows_in tombstone_codec tombstones.entry)) }
{
    tombstones
        .position(|row| slot < octets::get_u64(row, 0))
        .unwrap_or(tombstones.len())
}

// Puts a tombstone among the others by its slot; answers how many there are.
pub fn insert_by_slot(tombstones: &mut [u8], count: usize, row: Tombstone) -> usize
    requires { held (length tombstones.old) tombstone_width count * tombstone_width + tombstone_width ≤ length tombstones.old }
    ensures { TableNow tombstone_codec tombstones.old (insert_by_slot row (table_of tombstone_codec count tombstones.old)) result tombstones.new }
{
    let table = Table {
        area: tombstones,
        count,
    };
    let i = place_by_slot(table, row.slot);
    Tombstone::insert(tombstones, count, i, row)
}

// ---- the areas beside an exchange

// Is the prefix area or the offer area that lies beside an exchange too short?
pub fn short_exchange(prefixes: usize, offers: usize) -> bool
    ensures { result ≡ (nat_lt prefixes 4096 || nat_lt offers 8704) }
{
    prefixes < PREFIX_AREA || offers < OFFER_AREA
}
