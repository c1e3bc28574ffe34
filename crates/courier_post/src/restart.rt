// A post that is saved, and started again of that file.
use crate::post::{FILE_AREA, Post};
use crate::step::Step::{
    self, Accepted, CarriedRows, Contact, Deposit, End, Fetch, Listed, Maintenance, Minute, Open,
    Send, Stored, Title, Tomb,
};
use crate::step::{run, show_ended};
use crate::tags::Head::{Plain, Sealed};
use crate::tags::Secret;
use crate::tags::Tag::Of;
use state::BLOB;
use std::io;

// What a post is started with beside the file.
const CONTACTS: &[Step] = &[Contact(7), Contact(6), Contact(5)];

// Slot 0 goes by maintenance. Slot 1 has 4 copies, slot 2 is a tombstone, and slot 3 has 1 copy. Each of three peers is offered half of slot 1
// before the first one accepts.
const ALL_TAKEN: &[Step] = &[
    Title(
        "three peers take all copies of a row; the post is saved, and started again with its contacts",
    ),
    Deposit(7, Plain(0x21, 4, 20)),
    Deposit(7, Sealed(Of(0x22), 4, 100)),
    Stored(Of(0x31), 100),
    Minute(20),
    Maintenance,
    Deposit(6, Plain(0x23, 1, 100)),
    Open(0, 7),
    Open(1, 6),
    Open(2, 5),
    End(0),
    End(1),
    End(2),
    Accepted(0, Of(0x22)),
    Accepted(1, Of(0x22)),
    Accepted(2, Of(0x22)),
    CarriedRows,
];

// The row that has no copies left is not offered. It is fetched, and known: code 2 is Duplicate. Its tomb turns it.
const KNOWN: &[Step] = &[
    Title("the row is not offered; it is fetched and known, and its tomb turns it"),
    Listed(&[Of(0x99)]),
    Fetch(5, Of(0x22)),
    Send(6, Sealed(Of(0x22), 4, 100)),
    Tomb(Of(0x22), Secret::Carried),
    Send(6, Sealed(Of(0x22), 4, 100)),
];

pub fn restart(rt: &(impl Print + Eprint)) -> io::Result<()> {
    let mut p = Post::default();
    run(rt, &mut p, CONTACTS)?;
    run(rt, &mut p, ALL_TAKEN)?;
    let mut area = [0u8; FILE_AREA];
    let file = p.file(&mut area);
    println!(rt; "file {}", file.len())?;
    let mut again = Post::default();
    run(rt, &mut again, CONTACTS)?;
    run(rt, &mut again, &[Minute(20)])?;
    let answer = again.load(file);
    show_ended(rt, &again, &answer)?;
    run(rt, &mut again, &[CarriedRows])?;
    compare(rt, &p, &again)?;
    run(rt, &mut again, KNOWN)
}

// ---- the two posts

// Writes whether what both posts have is one; if not, it is told on standard error too.
fn show_equal(rt: &(impl Print + Eprint), same: bool) -> io::Result<()> {
    if same {
        return println!(rt; "equal");
    }
    println!(rt; "other")?;
    eprintln!(rt; "the post that was started again holds other than what was saved")
}

// The blob in each slot, ciphertext and all, the next slot and the file.
fn compare(rt: &(impl Print + Eprint), p: &Post, again: &Post) -> io::Result<()> {
    let next = p.device.next_slot;
    for slot in 0..next {
        let mut a = [0u8; BLOB];
        let mut b = [0u8; BLOB];
        let before = p.blob(slot, &mut a);
        print!(rt; "slot {slot}, {} bytes: ", before.len())?;
        show_equal(rt, before == again.blob(slot, &mut b))?;
    }
    print!(rt; "next slot {next}: ")?;
    show_equal(rt, next == again.device.next_slot)?;
    let mut a = [0u8; FILE_AREA];
    let mut b = [0u8; FILE_AREA];
    print!(rt; "file: ")?;
    show_equal(rt, p.file(&mut a) == again.file(&mut b))
}
