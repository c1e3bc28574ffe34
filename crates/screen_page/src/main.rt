// Pages of the post's screen, printed as they are. Before each a line says what is shown, and how many bytes were answered.
#![tactic(auto)]

use courier_core::ContactId;
use rows::{
    CARRIED_AREA, CARRIED_WIDTH, Carried, Device, MAX_CARRIED, Row, TOMBSTONE_WIDTH, Tombstone,
};
use screen::PAGE;
use std::io;
use text::Tried;

const MAX_TOMBSTONES: usize = 40;

const TOMBSTONE_AREA: usize = MAX_TOMBSTONES * TOMBSTONE_WIDTH;

// What a post shows: its device and its two tables of held rows.
// (Its own struct: the other programs' posts have areas of other sizes, and more of them, and one for all would have a parameter for each size.)
#[derive(Clone, Copy, Default)]
struct Post {
    device: Device,
    carried: [u8; CARRIED_AREA],
    tombstones: [u8; TOMBSTONE_AREA],
}

// What stands in an area before a page is written.
const BEFORE: u8 = b'.';

// The bytes of the array of which the area is the front: more than any area here has.
const AREA: usize = 2_000;

// ---- posts

impl Post {
    // One carried row more; the last one's place is taken where there is no room.
    fn carry(&mut self, row: Carried) {
        let n = self.device.carried.min(MAX_CARRIED - 1);
        row.put(&mut self.carried, n * CARRIED_WIDTH);
        self.device.carried = n + 1;
    }

    // The same, of a tombstone. (Two functions: each table has an area, a count and a limit of its own.)
    fn entomb(&mut self, slot: u64, tag: u8, expiry: u32) {
        let m = self.device.tombstones.min(MAX_TOMBSTONES - 1);
        let row = Tombstone {
            slot,
            tag: [tag; 16],
            s: [0; 16],
            expiry_min: expiry,
        };
        row.put(&mut self.tombstones, m * TOMBSTONE_WIDTH);
        self.device.tombstones = m + 1;
    }

    // The post at another clock.
    fn at_clock(mut self, seconds: u64) -> Post {
        self.device.now_s = seconds;
        self
    }
}

fn carried_row(slot: u64, depositor: u64, tag: u8, expiry: u32, copies: u8) -> Carried {
    Carried {
        slot,
        depositor: ContactId(depositor),
        tag: [tag; 16],
        c: [0; 16],
        expiry_min: expiry,
        copies,
        len: 48,
        cell: 0,
    }
}

// Slots from 0 on: every third row is a tombstone.
fn mixed(count: u8) -> Post {
    let mut post = Post::default();
    for i in 0..count {
        let slot = u64::from(i);
        let expiry = 90 + u32::from(i);
        if i % 3 == 2 {
            post.entomb(slot, i, expiry);
        } else {
            post.carry(carried_row(slot, 1000 + slot, i, expiry, i));
        }
    }
    post
}

// ---- pages

// How many bytes at the end of an area are as they were before.
fn left_alone(area: &[u8]) -> usize {
    area.iter().rev().take_while(|b| **b == BEFORE).count()
}

// The page with an area of so many bytes: what is answered, the page's bytes, and how many behind them are as they were.
fn show(rt: &impl Print, what: &str, post: &Post, page: u64, size: usize) -> io::Result<()> {
    let mut whole = [BEFORE; AREA];
    let area = &mut whole[..size.min(AREA)];
    print!(rt; "{what}: page {page}, area {size}: ")?;
    match screen::page(post.device, page, &post.carried, &post.tombstones, area) {
        Err(why) => println!(rt; "refused {}, left alone {}", why.number(), left_alone(area)),
        Ok(n) => {
            println!(rt; "bytes {n}, left alone {}", left_alone(area))?;
            rt.write_all(&area[..n.min(area.len())])
        }
    }
}

fn counts(rt: &impl Print) -> io::Result<()> {
    show(rt, "no row", &Post::default(), 0, PAGE)?;
    show(rt, "no row", &Post::default(), 1, PAGE)?;
    show(rt, "1 row", &mixed(1), 0, PAGE)?;
    show(rt, "1 row", &mixed(1), 1, PAGE)?;
    show(rt, "19 rows", &mixed(19), 0, PAGE)?;
    show(rt, "19 rows", &mixed(19), 1, PAGE)?;
    show(rt, "20 rows", &mixed(20), 0, PAGE)?;
    show(rt, "20 rows", &mixed(20), 1, PAGE)?;
    show(rt, "38 rows", &mixed(38), 1, PAGE)?;
    show(rt, "38 rows", &mixed(38), 2, PAGE)?;
    show(rt, "38 rows", &mixed(38), u64::MAX, PAGE)
}

// The greatest numbers, and none.
fn numbers(rt: &impl Print) -> io::Result<()> {
    let mut post = Post::default();
    post.carry(carried_row(0, 0, 0, 1, 0));
    post.carry(carried_row(u64::MAX - 1, u64::MAX, 0xFF, u32::MAX, 255));
    post.entomb(u64::MAX, 0xAB, u32::MAX);
    show(rt, "least and greatest numbers", &post, 0, PAGE)?;
    let mut held = Post::default();
    held.carry(carried_row(7, 12, 0x0A, u32::MAX, 1));
    show(rt, "the last minute", &held.at_clock(u64::MAX), 0, PAGE)
}

// A carried row and a tombstone that expire at minute 10: a second before it, at it, and a minute later.
fn clocks(rt: &impl Print) -> io::Result<()> {
    let mut post = Post::default();
    post.carry(carried_row(3, 5, 0x11, 10, 6));
    post.entomb(4, 0x22, 10);
    show(rt, "clock 599", &post.at_clock(599), 0, PAGE)?;
    show(rt, "clock 600", &post.at_clock(600), 0, PAGE)?;
    show(rt, "clock 660", &post.at_clock(660), 0, PAGE)
}

fn areas(rt: &impl Print) -> io::Result<()> {
    show(rt, "short area", &mixed(1), 0, PAGE - 1)?;
    show(rt, "no area", &mixed(1), 0, 0)?;
    show(rt, "longer area", &mixed(1), 0, PAGE + 1)?;
    show(rt, "full page", &mixed(19), 0, PAGE + 1)
}

// Slots that no call leaves: one of both kinds, and one that falls.
fn garbage(rt: &impl Print) -> io::Result<()> {
    let mut post = Post::default();
    post.carry(carried_row(9, 5, 0x11, 100, 6));
    post.carry(carried_row(2, 5, 0x33, 100, 6));
    post.entomb(9, 0x22, 100);
    show(rt, "slots that do not rise", &post, 0, PAGE)
}

fn main(rt: HostRuntime) -> io::Result<()> {
    let rt = Tried(rt);
    counts(&rt)?;
    numbers(&rt)?;
    clocks(&rt)?;
    areas(&rt)?;
    garbage(&rt)
}
