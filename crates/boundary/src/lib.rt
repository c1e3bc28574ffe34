// What goes by value in a call lies in small areas at a host of another language: the device in 60 bytes, an exchange in 26, numbers
// with the highest byte first. A flag is on unless its byte is 0. What a call leaves as it is keeps its bytes, whatever they are.
// (Sizes and offsets are those of the C header: include/check reads them off `device_of` and `exchange_of`. Offsets are numbers: each stands once
// more where the field is written, and those of flags and peer where what was there is kept; the proof refuses any other there: a name for
// each of the fifteen would say no more.)
#![tactic(auto)]

ghost use Rattle.std.specs.Prelude.{◌≡◌, ◌+◌, ◌≤◌, length};
ghost use Rattle.octets.specs.Bytes.{Bytes, part, num};
ghost use Rattle.boundary.specs.Boundary.{is_on, flag_over, device_of, device_bytes, HoldsDevice, FreshArea, exchange_of, exchange_bytes, HoldsExchange};

use courier_core::ContactId;
use rows::{Device, Exchange};
use state::CourierConfig;

// The bytes of the small areas: the device's, and an exchange's.
pub const DEVICE: usize = 60;

pub const EXCHANGE: usize = 26;

// ---- flags

fn is_on(byte: u8) -> bool
    ensures { result ≡ is_on byte }
{
    byte != 0
}

// The byte of a flag in an area, all of whose elements are bytes. (The proof that an area stays as it is where what it holds
// already is put into it needs that; said by `octets::get_u8`, it would stand in each of its other callers' proofs.)
#[tactic(auto, using(octets::proofs::Numbers::num_one, octets::proofs::Numbers::bytes_of))]
fn byte_in(area: &[u8], at: usize) -> u8
    requires { at + 1 ≤ length area.now }
    ensures { (result ≡ num (part area.now at 1)) × Bytes area.now }
{
    area[at]
}

// The byte of a flag that is now on or off: the one that was there, if it says so.
#[tactic(auto, unfolding(crate::specs::Boundary::flag_over))]
fn flag_over(byte: u8, on: bool) -> u8
    ensures { result ≡ flag_over byte on }
{
    if on { byte.max(1) } else { 0 }
}

// ---- the device: enabled, copies, lifetime, clock, the counts of contacts, own rows, carried rows, tombstones and bad tags, next slot

#[tactic(auto, unfolding(crate::specs::Boundary::device_of))]
pub fn device_of(area: &[u8; DEVICE]) -> Device
    ensures { result ≡ device_of area.now }
{
    let courier = CourierConfig {
        enabled: is_on(octets::get_u8(area, 0)),
        copies: octets::get_u8(area, 1),
        lifetime_min: octets::get_u16(area, 2),
    };
    Device {
        courier,
        now_s: octets::get_u64(area, 4),
        contacts: octets::get_u64(area, 12) as usize,
        own: octets::get_u64(area, 20) as usize,
        carried: octets::get_u64(area, 28) as usize,
        tombstones: octets::get_u64(area, 36) as usize,
        bad_tags: octets::get_u64(area, 44) as usize,
        next_slot: octets::get_u64(area, 52),
    }
}

fn device_bytes(enabled: u8, device: Device) -> [u8; DEVICE]
    ensures { result ≡ device_bytes enabled device }
{
    let mut b = [0u8; DEVICE];
    octets::put_u8(&mut b, 0, enabled);
    octets::put_u8(&mut b, 1, device.courier.copies);
    octets::put_u16(&mut b, 2, device.courier.lifetime_min);
    octets::put_u64(&mut b, 4, device.now_s);
    octets::put_u64(&mut b, 12, device.contacts as u64);
    octets::put_u64(&mut b, 20, device.own as u64);
    octets::put_u64(&mut b, 28, device.carried as u64);
    octets::put_u64(&mut b, 36, device.tombstones as u64);
    octets::put_u64(&mut b, 44, device.bad_tags as u64);
    octets::put_u64(&mut b, 52, device.next_slot);
    b
}

#[tactic(auto, using(crate::proofs::AreaLaws::device_back, crate::proofs::AreaLaws::device_stays, crate::proofs::AreaLaws::flag_says), unfolding(crate::specs::Boundary::device_area))]
pub fn put_device(area: &mut [u8; DEVICE], device: Device)
    ensures { HoldsDevice area.old device area.new }
{
    let enabled = flag_over(byte_in(area, 0), device.courier.enabled);
    *area = device_bytes(enabled, device);
}

// A fresh device, whatever the area was.
#[tactic(auto, using(crate::proofs::AreaLaws::device_back))]
pub fn fresh_device(area: &mut [u8; DEVICE])
    ensures { FreshArea area.new }
{
    *area = device_bytes(1, Device::fresh());
}

// ---- an exchange: whether it was opened, whether the terminator came, its peer, the counts of listed prefixes and of offers

#[tactic(auto, unfolding(crate::specs::Boundary::exchange_of))]
pub fn exchange_of(area: &[u8; EXCHANGE]) -> Exchange
    ensures { result ≡ exchange_of area.now }
{
    let opened = is_on(octets::get_u8(area, 0));
    let peer = ContactId(octets::get_u64(area, 2));
    Exchange {
        peer: opened.then_some(peer),
        complete: is_on(octets::get_u8(area, 1)),
        listed: octets::get_u64(area, 10) as usize,
        offered: octets::get_u64(area, 18) as usize,
    }
}

fn exchange_bytes(
    opened: u8,
    complete: u8,
    peer: u64,
    listed: usize,
    offered: usize,
) -> [u8; EXCHANGE]
    ensures { result ≡ exchange_bytes opened complete peer listed offered }
{
    let mut b = [0u8; EXCHANGE];
    octets::put_u8(&mut b, 0, opened);
    octets::put_u8(&mut b, 1, complete);
    octets::put_u64(&mut b, 2, peer);
    octets::put_u64(&mut b, 10, listed as u64);
    octets::put_u64(&mut b, 18, offered as u64);
    b
}

// The peer's number stays as it was where the exchange is opened for none.
#[tactic(auto, using(crate::proofs::AreaLaws::exchange_back, crate::proofs::AreaLaws::exchange_stays, crate::proofs::AreaLaws::peer_back, crate::proofs::AreaLaws::flag_says), unfolding(crate::specs::Boundary::exchange_area))]
pub fn put_exchange(area: &mut [u8; EXCHANGE], exchange: Exchange)
    ensures { HoldsExchange area.old exchange area.new }
{
    let opened = flag_over(byte_in(area, 0), exchange.peer.is_some());
    let complete = flag_over(byte_in(area, 1), exchange.complete);
    let before = ContactId(octets::get_u64(area, 2));
    let peer = exchange.peer.unwrap_or(before);
    *area = exchange_bytes(opened, complete, peer.0, exchange.listed, exchange.offered);
}
