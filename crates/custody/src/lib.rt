// The code of an envelope that is not in the window: `custody` of couriering.rs, with the limits that Full tests.
#![tactic(auto)]

ghost use Rattle.std.specs.Prelude.{◌≡◌, ◌+◌, ◌*◌, ◌≤◌, length, nat_lt};
ghost use Rattle.octets.specs.Bytes.{part, num};
ghost use Rattle.table.specs.Lists.{any};
ghost use Rattle.table.specs.Codec.{table_of};
ghost use Rattle.table.specs.Tables.{rows_in};
ghost use Rattle.courier.specs.Courier.{envelope_header};
ghost use Rattle.state.specs.Sizes.{cell_size};
ghost use Rattle.rows.specs.Rows.{contact_codec, own_codec, carried_width, carried_codec};
ghost use Rattle.rows.specs.Limits.{max_carried, max_carried_bytes};
ghost use Rattle.model.specs.State.{State};
ghost use Rattle.model.specs.Areas.{Areas, view};
ghost use Rattle.model.specs.Cells.{cell_length};
ghost use Rattle.custody.specs.Lent.{Lent};
ghost use Rattle.model.specs.Custody.{own_of_tag, carried_of_tag, quota, duplicate, carried_total, full, custody_of};

use courier::{Custody, ENVELOPE_HEADER, Header};
use courier_core::ContactId;
use holdings::cells::cell_length;
use holdings::{deposited, is_verified, now_min, tombstoned};
use rows::{
    CARRIED_AREA, CARRIED_WIDTH, Carried, Device, MAX_CARRIED, MAX_PER_VERIFIED, OWN_WIDTH, Own,
};
use state::CELL;
use table::Table;

// What a device holds for others, at most: bytes, and rows of one depositor that is not verified (of one that is: `rows::MAX_PER_VERIFIED`).
const MAX_CARRIED_BYTES: usize = 1_048_576;

const MAX_PER_DEPOSITOR: usize = 16;

// What the tests of an envelope read: the device, the tables that a host lends beside it, and how many bytes its area of carried cells has.
// (The areas are bare, as the device has their counts: with a `Table` as each field the counts would stand twice, and `Lent` would have to ask that
// they agree. So the methods write the table of an area as a literal, where they read it: given by a method, each proof would first rewrite by what
// that ensures. A field that is a lent array goes into a literal through a local: put there straight, the borrow check does not cover it.)
#[derive(Clone, Copy)]
pub struct Tables<'a> {
    pub device: Device,
    pub contacts: &'a [u8],
    pub own: &'a [u8],
    pub carried: &'a [u8; CARRIED_AREA],
    pub tombstones: &'a [u8],
    pub size: usize,
}

// ---- rows by tag

// Has one of the own rows the tag?
pub fn own_tagged(own: Table<OWN_WIDTH>, tag: [u8; 16]) -> bool
    ensures { result ≡ any (own_of_tag tag) (rows_in own_codec own.entry) }
{
    own.has(Own::TAG, &tag)
}

// Has one of the carried rows the tag?
pub fn carried_tagged(carried: Table<CARRIED_WIDTH>, tag: [u8; 16]) -> bool
    ensures { result ≡ any (carried_of_tag tag) (rows_in carried_codec carried.entry) }
{
    carried.has(Carried::TAG, &tag)
}

// Duplicate looks at own rows and at every held row, in areas of any length. (`Tables::duplicate` is this of a `Tables`.)
pub fn duplicate(
    device: Device,
    own: &[u8],
    carried: &[u8],
    tombstones: &[u8],
    tag: [u8; 16],
) -> bool
    ensures { (a : Areas) → a.device ≡ device → a.own ≡ own.now → a.carried ≡ carried.now → a.tombstones ≡ tombstones.now → result ≡ duplicate (view a) tag }
{
    let own = Table {
        area: own,
        count: device.own,
    };
    let carried = Table {
        area: carried,
        count: device.carried,
    };
    let tombstones = Table {
        area: tombstones,
        count: device.tombstones,
    };
    own_tagged(own, tag) || carried_tagged(carried, tag) || tombstoned(tombstones, tag)
}

// ---- the limits

// The length of the ciphertext of the carried row at a place.
fn ciphertext_length(carried: &[u8], at: usize, size: usize) -> usize
    requires { at + carried_width ≤ length carried.now }
    ensures { (result ≡ cell_length size (num (part carried.now (at + 55) 2)) (num (part carried.now (at + 53) 2))) × (result ≤ cell_size) }
{
    cell_length(
        size,
        octets::get_u16(carried, at + Carried::CELL),
        octets::get_u16(carried, at + Carried::LEN),
    )
}

// Header and ciphertext bytes of carried rows, in a cell area of size bytes. There are 256 rows at most, so that the sum fits.
fn carried_total(carried: Table<CARRIED_WIDTH>, size: usize) -> usize
    requires { length carried.area.now ≤ max_carried * carried_width }
    ensures { result ≡ carried_total size (rows_in carried_codec carried.entry) }
{
    (0..carried.len())
        .map(
            |i|
                requires { i * carried_width + carried_width ≤ length carried.area.now }
            { ENVELOPE_HEADER + ciphertext_length(carried.area, i * CARRIED_WIDTH, size) },
        )
        .sum()
}

fn quota(verified: bool) -> usize
    ensures { result ≡ quota verified }
{
    if verified {
        MAX_PER_VERIFIED
    } else {
        MAX_PER_DEPOSITOR
    }
}

// Would an envelope more pass the limit of bytes?
fn over_bytes(bytes: usize, len: usize) -> bool
    ensures { result ≡ nat_lt max_carried_bytes (bytes + (envelope_header + len)) }
{
    bytes.saturating_add(len) > MAX_CARRIED_BYTES - ENVELOPE_HEADER
}

// The same, over the carried rows. 256 of them have 537,856 bytes at most, so that a ciphertext which fits a cell never passes it.
fn too_many_bytes(carried: Table<CARRIED_WIDTH>, size: usize, len: usize) -> bool
    requires { length carried.area.now ≤ max_carried * carried_width }
    ensures { result ≡ nat_lt max_carried_bytes (carried_total size (rows_in carried_codec carried.entry) + (envelope_header + len)) }
{
    len > CELL && over_bytes(carried_total(carried, size), len)
}

// ---- `custody`

impl Tables<'_> {
    // Duplicate looks at own rows and at every held row.
    pub fn duplicate(self, tag: [u8; 16]) -> bool
        ensures { (a : Areas) → a.device ≡ self.entry.device → a.own ≡ self.entry.own.now → a.carried ≡ self.entry.carried.now → a.tombstones ≡ self.entry.tombstones.now → result ≡ duplicate (view a) tag }
    {
        let carried = self.carried;
        duplicate(self.device, self.own, carried, self.tombstones, tag)
    }

    // Full, of an envelope of len ciphertext bytes.
    pub fn full(self, peer: ContactId, len: usize) -> bool
        ensures { (s : State) → s.carried ≡ table_of carried_codec self.entry.device.carried self.entry.carried.now → s.contacts ≡ table_of contact_codec self.entry.device.contacts self.entry.contacts.now → self.entry.size ≡ length s.carried_cells → result ≡ full s peer len }
    {
        let contacts = Table {
            area: self.contacts,
            count: self.device.contacts,
        };
        let area = self.carried;
        let carried = Table {
            area,
            count: self.device.carried,
        };
        carried.len() >= MAX_CARRIED
            || too_many_bytes(carried, self.size, len)
            || deposited(carried, peer) >= quota(is_verified(contacts, peer))
    }

    // The tests Off, Invalid, Duplicate, Full: the first that applies is the code.
    pub fn custody(self, peer: ContactId, head: Header, len: usize) -> Custody
        ensures { (a : Areas) → Lent a self.entry → result ≡ custody_of (view a) peer head len }
    {
        if !self.device.courier.enabled {
            return Custody::Off;
        }
        if !courier::valid(
            len,
            head.copies,
            head.expiry_min,
            now_min(self.device.now_s),
        ) {
            return Custody::Invalid;
        }
        if self.duplicate(head.tag) {
            return Custody::Duplicate;
        }
        if self.full(peer, len) {
            return Custody::Full;
        }
        Custody::Accepted
    }
}
