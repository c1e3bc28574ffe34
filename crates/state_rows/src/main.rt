// Boundary values of courier and state, one short line for each.
#![tactic(auto)]

use chain::{Dir, TAG_LEN};
use courier::{Custody, Header};
use courier_core::{ContactId, Refusal};
use state::{BLOB, CELL, Carried, CourierConfig, Held, TOMBSTONE_ROW, Tombstone};
use std::{fmt, io};
use text::Tried;

fn yes(b: bool) -> &'static str {
    if b { "yes" } else { "no" }
}

// ---- courier: tags and commitments

// A tag, a commitment or a secret, in hexadecimal. (vectors has the same for bytes of any number.)
#[derive(Clone, Copy)]
struct Hex([u8; 16]);

impl fmt::Display for Hex {
    fn fmt<W: fmt::Write>(&self, f: &mut fmt::Formatter<W>) -> fmt::Result {
        for byte in &self.0 {
            write!(f, "{byte:02x}")?;
        }
        Ok(())
    }
}

fn key() -> [u8; 32] {
    let mut k = [0x5Au8; 32];
    k[0] = 1;
    k[31] = 2;
    k
}

fn show_tag(rt: &impl Print, dir: Dir, generation: u8, idx: u32) -> io::Result<()> {
    let tag = courier::route_tag(key(), dir, generation, idx);
    println!(rt; "tag {generation} {idx} {}", Hex(tag))
}

// An index has one to five bytes.
fn tags(rt: &impl Print) -> io::Result<()> {
    show_tag(rt, Dir::I, 0, 0)?;
    show_tag(rt, Dir::R, 0, 0)?;
    show_tag(rt, Dir::I, 255, 127)?;
    show_tag(rt, Dir::I, 1, 128)?;
    show_tag(rt, Dir::R, 1, 16384)?;
    show_tag(rt, Dir::I, 1, 2097152)?;
    show_tag(rt, Dir::R, 255, u32::MAX)
}

// A commitment of which one byte is another does not match.
fn secrets(rt: &impl Print) -> io::Result<()> {
    let s = courier::delivered(key());
    let c = courier::commitment(s);
    let mut near = c;
    near[15] ^= 1;
    println!(rt; "delivered {}", Hex(s))?;
    println!(rt; "commitment {}", Hex(c))?;
    for x in [c, s, near] {
        println!(rt; "matches {}", yes(courier::tombstone_matches(x, s)))?;
    }
    Ok(())
}

// ---- courier: valid, codes

fn show_valid(rt: &impl Print, len: usize, copies: u8, expiry: u32, minute: u32) -> io::Result<()> {
    let valid = courier::valid(len, copies, expiry, minute);
    println!(rt; "valid {len} {copies} {expiry} {minute} {}", yes(valid))
}

// The ciphertext length of 0, which is no bucket, and of each bucket, and one either side.
fn buckets(rt: &impl Print) -> io::Result<()> {
    for inner in [0, 32, 64, 128, 256, 512, 1024, 2048, 4048] {
        for len in inner + TAG_LEN - 1..inner + TAG_LEN + 2 {
            show_valid(rt, len, 1, 11, 10)?;
        }
    }
    Ok(())
}

fn copies_and_expiry(rt: &impl Print) -> io::Result<()> {
    show_valid(rt, 0, 1, 11, 10)?;
    show_valid(rt, 48, 0, 11, 10)?;
    show_valid(rt, 48, 255, 11, 10)?;
    show_valid(rt, 48, 1, 9, 10)?;
    show_valid(rt, 48, 1, 10, 10)?;
    show_valid(rt, 48, 1, 0, 0)?;
    show_valid(rt, 48, 1, 1, 0)?;
    show_valid(rt, 48, 1, u32::MAX - 1, u32::MAX)?;
    show_valid(rt, 48, 1, u32::MAX, u32::MAX)?;
    show_valid(rt, 48, 1, u32::MAX, u32::MAX - 1)
}

// Of all 256 bytes those that are codes, each with its byte again.
fn codes(rt: &impl Print) -> io::Result<()> {
    for byte in 0..=u8::MAX {
        if let Some(custody) = Custody::from_code(byte) {
            println!(rt; "code {byte} {}", custody.code())?;
        }
    }
    Ok(())
}

// ---- state: configurations

fn show_config(rt: &impl Print, config: CourierConfig) -> io::Result<()> {
    println!(rt;
        " {} {} {}",
        config.copies,
        config.lifetime_min,
        yes(config.enabled)
    )
}

fn show_new(rt: &impl Print, enabled: bool, copies: u8, lifetime: u16) -> io::Result<()> {
    print!(rt; "new {copies} {lifetime}")?;
    match CourierConfig::new(enabled, copies, lifetime) {
        Ok(config) => show_config(rt, config),
        Err(why) => println!(rt; " refused {}", why.number()),
    }
}

fn configs(rt: &impl Print) -> io::Result<()> {
    show_new(rt, true, 0, 60)?;
    show_new(rt, true, 1, 60)?;
    show_new(rt, false, 16, 10080)?;
    show_new(rt, true, 17, 10080)?;
    show_new(rt, true, 255, 1440)?;
    show_new(rt, true, 6, 0)?;
    show_new(rt, true, 6, 59)?;
    show_new(rt, false, 6, 61)?;
    show_new(rt, true, 6, 10079)?;
    show_new(rt, true, 6, 10081)?;
    show_new(rt, true, 6, 65535)?;
    print!(rt; "default")?;
    show_config(rt, CourierConfig::default())
}

// ---- state: rows

fn envelope(copies: u8, expiry: u32) -> Carried {
    Carried {
        depositor: ContactId(0x0102_0304_0506_0708),
        header: Header {
            tag: [0x11; 16],
            c: [0x22; 16],
            expiry_min: expiry,
            copies,
        },
    }
}

fn delivered() -> Tombstone {
    Tombstone {
        tag: [0x33; 16],
        s: [0x44; 16],
        expiry_min: 0,
    }
}

// What stands in an area before a row is written.
const BEFORE: u8 = 0xEE;

// What was answered, and how many bytes are no longer as before.
fn show_area(
    rt: &impl Print,
    name: &str,
    area: &[u8],
    answer: Result<usize, Refusal>,
) -> io::Result<()> {
    print!(rt; "{name} into {}", area.len())?;
    match answer {
        Ok(n) => print!(rt; " written {n}")?,
        Err(why) => print!(rt; " refused {}", why.number())?,
    }
    println!(rt;
        " changed {}",
        area.iter().filter(|byte| **byte != BEFORE).count()
    )
}

fn carried_area(rt: &impl Print, area: &mut [u8]) -> io::Result<()> {
    let answer = state::carried_row(envelope(9, 100), &[7; 48], area);
    show_area(rt, "carried", area, answer)
}

fn tombstone_area(rt: &impl Print, area: &mut [u8]) -> io::Result<()> {
    let answer = state::tombstone_row(delivered(), area);
    show_area(rt, "tombstone", area, answer)
}

fn areas(rt: &impl Print) -> io::Result<()> {
    let mut short = [BEFORE; BLOB - 1];
    carried_area(rt, &mut short)?;
    tombstone_area(rt, &mut short)?;
    carried_area(rt, &mut [BEFORE; BLOB])?;
    tombstone_area(rt, &mut [BEFORE; BLOB + 1])
}

fn show_carried(rt: &impl Print, row: Carried) -> io::Result<()> {
    let depositor = row.depositor.0;
    let Header {
        tag,
        c,
        expiry_min,
        copies,
    } = row.header;
    println!(rt;
        " carried {depositor} {} {} {expiry_min} {copies}",
        tag[0], c[15]
    )
}

fn show_tombstone(rt: &impl Print, t: Tombstone) -> io::Result<()> {
    let Tombstone { tag, s, expiry_min } = t;
    println!(rt; " tombstone {} {} {expiry_min}", tag[0], s[15])
}

fn show_read(rt: &impl Print, blob: &[u8]) -> io::Result<()> {
    match state::decode(blob) {
        None => println!(rt; " none"),
        Some(Held::Carried(row)) => show_carried(rt, row),
        Some(Held::Tombstone(t)) => show_tombstone(rt, t),
    }
}

// A carried row with n bytes of ciphertext, one more than a cell at most, written and read back. (The lesser of the two, twice: the check asks that a
// slice ends inside its array, and `n` and `len` may be any number.)
fn carried_back(rt: &impl Print, copies: u8, expiry: u32, n: usize) -> io::Result<()> {
    let ct = [7u8; CELL + 1];
    let mut area = [BEFORE; BLOB];
    let ct = &ct[..n.min(CELL + 1)];
    let len = state::carried_row(envelope(copies, expiry), ct, &mut area).unwrap_or(0);
    print!(rt; "row {n} {len}")?;
    show_read(rt, &area[..len.min(BLOB)])
}

fn rows(rt: &impl Print) -> io::Result<()> {
    carried_back(rt, 9, 100, 48)?;
    carried_back(rt, 255, u32::MAX, 80)?;
    carried_back(rt, 1, 1, 144)?;
    carried_back(rt, 9, 100, 272)?;
    carried_back(rt, 9, 100, 528)?;
    carried_back(rt, 9, 100, 1040)?;
    carried_back(rt, 9, 100, CELL)?;
    carried_back(rt, 9, 100, CELL + 1)?;
    carried_back(rt, 0, 100, 48)?;
    carried_back(rt, 9, 0, 48)?;
    carried_back(rt, 0, 0, 48)?;
    carried_back(rt, 9, 100, 0)?;
    carried_back(rt, 9, 100, 47)?;
    carried_back(rt, 9, 100, 49)
}

// A tombstone's row, and the rest of the area as before.
fn tombstone_blob() -> [u8; BLOB] {
    let mut blob = [BEFORE; BLOB];
    let _ = state::tombstone_row(delivered(), &mut blob);
    blob
}

// The longest front of a tombstone's area that is read.
const FRONT: usize = 48;

// Of the fronts up to that length those that are rows.
fn tombstone_fronts(rt: &impl Print) -> io::Result<()> {
    let blob = tombstone_blob();
    print!(rt; "fronts")?;
    for n in 0..=FRONT {
        if state::decode(&blob[..n]).is_some() {
            print!(rt; " {n}")?;
        }
    }
    println!(rt;)
}

// A tombstone's bytes with any byte in the place of its kind: two of the four that are shown are no kind.
fn show_kind(rt: &impl Print, byte: u8) -> io::Result<()> {
    let mut blob = tombstone_blob();
    blob[0] = byte;
    print!(rt; "kind {byte}")?;
    show_read(rt, &blob[0..TOMBSTONE_ROW])
}

fn kinds(rt: &impl Print) -> io::Result<()> {
    for byte in [1, 2, 255, 0] {
        show_kind(rt, byte)?;
    }
    Ok(())
}

fn main(rt: HostRuntime) -> io::Result<()> {
    let rt = Tried(rt);
    tags(&rt)?;
    secrets(&rt)?;
    buckets(&rt)?;
    copies_and_expiry(&rt)?;
    codes(&rt)?;
    configs(&rt)?;
    areas(&rt)?;
    rows(&rt)?;
    tombstone_fronts(&rt)?;
    kinds(&rt)
}
