// The scenes are lists of steps: a step puts one thing to the post. What only sets it up writes nothing; the others write what they answer.
use crate::lines;
use crate::post::{MINUTE, Post, first, first_rows};
use crate::tags::{Head, Secret, Tag, list_of, window};
use host_answers::{Answer, DONE, MALFORMED, OURS};
use rows::{Reply, Row};
use std::io;

#[derive(Clone, Copy)]
pub enum Step {
    Title(&'static str),

    // These write nothing.
    Second(u64),
    Minute(u32),
    Setting(u8, u16), // copies, lifetime
    Contact(u64),
    Own(u64, u32), // an own envelope: contact, message number
    Deposit(u64, Head), // an envelope of a peer
    WithoutCopies(usize), // the carried row at this place
    Stored(Tag, u32), // a tombstone whose secret has the bytes of its tag
    Opened(u64, Tag, u32), // peer, tag, expiry
    Failed(u64, Tag),

    // These write what they answer.
    Send(u64, Head), // as `Deposit`
    Fetch(u64, Tag),
    Tomb(Tag, Secret),
    Maintenance,
    Ours(u64), // our inventory for a peer
    Listed(&'static [Tag]), // a fresh exchange with contact 5, in which it lists prefixes and then none; no window
    Windowed(&'static [Tag]), // the same, with a window
    Open(usize, u64), // exchange, peer
    End(usize), // the peer of an exchange lists none
    Accepted(usize, Tag), // the peer of an exchange accepts what it was offered

    // These write rows that the post has.
    OwnRows(usize), // at most so many
    CarriedRows,
    TombstoneRows,
}

// The contact that lists prefixes.
const LISTER: u64 = 5;

// Puts steps to a post.
pub fn run(rt: &impl Print, p: &mut Post, steps: &[Step]) -> io::Result<()> {
    for step in steps {
        if !set_up(p, *step) {
            show(rt, p, *step)?;
        }
    }
    Ok(())
}

// Puts a step that writes nothing; false where it is another.
fn set_up(p: &mut Post, step: Step) -> bool {
    match step {
        Step::Second(second) => p.clock(second),
        Step::Minute(minute) => p.clock(u64::from(minute) * MINUTE),
        Step::WithoutCopies(i) => p.without_copies(i),
        Step::Setting(copies, lifetime) => drop(p.setting(copies, lifetime)),
        Step::Contact(id) => drop(p.contact(id)),
        Step::Own(contact, msgno) => drop(p.own_envelope(contact, msgno)),
        Step::Deposit(peer, head) => drop(p.envelope(peer, head)),
        Step::Stored(tag, expiry) => drop(p.stored_tombstone(tag, expiry)),
        Step::Opened(peer, tag, expiry) => drop(p.report_opened(peer, tag, expiry)),
        Step::Failed(peer, tag) => drop(p.report_failed(peer, tag)),
        _ => return false,
    }
    true
}

// Puts another step, and writes its line or lines.
fn show(rt: &impl Print, p: &mut Post, step: Step) -> io::Result<()> {
    match step {
        Step::Title(text) => println!(rt; "{text}"),
        Step::Send(peer, head) => {
            let answer = p.envelope(peer, head);
            show_answer(rt, p, &answer)
        }
        Step::Fetch(peer, tag) => {
            let answer = p.fetch(peer, tag);
            lines::show_fetched(rt, &answer, Reply::read(&p.replies, 0))
        }
        Step::Tomb(tag, secret) => {
            let answer = p.tomb(tag, secret);
            show_ended(rt, p, &answer)
        }
        Step::Maintenance => {
            let answer = p.maintenance();
            show_ended(rt, p, &answer)
        }
        Step::Ours(peer) => {
            let answer = p.inventory_of_ours(peer);
            show_answer(rt, p, &answer)?;
            lines::show_prefixes(rt, first_rows(&p.prefixes, answer.length))
        }
        Step::Listed(tags) => show_listed(rt, p, b"", tags),
        Step::Windowed(tags) => show_listed(rt, p, window().as_flattened(), tags),
        Step::Open(i, peer) => {
            let answer = p.open(i, peer);
            show_answer(rt, p, &answer)
        }
        Step::End(i) => show_received(rt, p, i, b"", b""),
        Step::Accepted(i, tag) => {
            let answer = p.accepted(i, tag);
            show_answer(rt, p, &answer)
        }
        Step::OwnRows(n) => lines::show_rows(rt, first(p.own_rows(), n), lines::show_own),
        Step::CarriedRows => lines::show_rows(rt, p.carried_rows(), lines::show_carried),
        Step::TombstoneRows => lines::show_rows(rt, p.tombstone_rows(), lines::show_tombstone),
        _ => Ok(()),
    }
}

// What a call answered: its replies and actions, or why there are none.
fn show_answer(rt: &impl Print, p: &Post, answer: &Answer) -> io::Result<()> {
    match answer.said {
        DONE => {
            lines::show_rows(
                rt,
                first_rows(&p.replies, answer.replies),
                lines::show_reply,
            )?;
            lines::show_rows(
                rt,
                first_rows(&p.actions, answer.actions),
                lines::show_action,
            )
        }
        MALFORMED => println!(rt; "malformed"),
        OURS => println!(rt; "ours"),
        why => println!(rt; "refused {why}"),
    }
}

// The same, and what is held then.
pub fn show_ended(rt: &impl Print, p: &Post, answer: &Answer) -> io::Result<()> {
    show_answer(rt, p, answer)?;
    lines::show_counts(rt, &p.device)
}

// What a list of prefixes from the peer of an exchange is answered with, and for how many rows the tombstones were searched.
fn show_received(
    rt: &impl Print,
    p: &mut Post,
    i: usize,
    window: &[u8],
    list: &[u8],
) -> io::Result<()> {
    let answer = p.receive(i, window, list);
    show_answer(rt, p, &answer)?;
    if answer.said == DONE {
        println!(rt; "searched {}", answer.length)?;
    }
    Ok(())
}

fn show_listed(rt: &impl Print, p: &mut Post, window: &[u8], tags: &[Tag]) -> io::Result<()> {
    let opened = p.open(0, LISTER);
    show_answer(rt, p, &opened)?;
    let list = list_of(tags);
    show_received(rt, p, 0, window, first(&list, tags.len()).as_flattened())?;
    show_received(rt, p, 0, window, b"")?;
    println!(rt; "offered {}", p.links[0].exchange.offered)
}
