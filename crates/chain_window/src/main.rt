// Runs the window call on its boundary cases and prints what it answers and what it leaves in the answer area.
#![tactic(auto)]

use chain::{ANSWER, CHAIN_WIDTH, Dir, KEY_WIDTH, MAX_SKIPPED, NEXT};
use courier_core::Refusal;
use std::io;
use text::Tried;

// What stands in the answer area before a call.
const FILL: u8 = 0xAA;

// One skipped key more than a receiver holds.
const SKIPPED: usize = MAX_SKIPPED + 1;

// ---- rows

fn chain_row(dir: u8, generation: u8, next: u64) -> [u8; CHAIN_WIDTH] {
    let mut row = [0; CHAIN_WIDTH];
    row[0] = dir;
    row[1] = generation;
    octets::put_u64(&mut row, NEXT, next);
    row
}

// The rows of three chains: their nexts, and the direction of the third.
fn three_chains(nexts: [u64; 3], third: u8) -> [[u8; CHAIN_WIDTH]; 3] {
    [
        chain_row(b'I', 0, nexts[0]),
        chain_row(b'R', 1, nexts[1]),
        chain_row(third, 2, nexts[2]),
    ]
}

fn chains(first: u64, second: u64, third: u64) -> [[u8; CHAIN_WIDTH]; 3] {
    three_chains([first, second, third], b'I')
}

// The index of the first skipped key.
const FIRST: u32 = 1_000;

// Skipped keys: direction I or R in turn, generation 9, indices one after another. (A key's index stands where a chain's next does, behind direction
// and generation.)
fn skipped_keys() -> [[u8; KEY_WIDTH]; SKIPPED] {
    let mut rows = [[9; KEY_WIDTH]; SKIPPED];
    for (row, index) in rows.iter_mut().zip(FIRST..FIRST + SKIPPED as u32) {
        row[0] = if index % 2 == 0 { b'I' } else { b'R' };
        octets::put_u32(row, NEXT, index);
    }
    rows
}

// ---- what is printed

// A listed row: direction, generation, index.
fn show_row(rt: &impl Print, row: &[u8; KEY_WIDTH]) -> io::Result<()> {
    let direction = char::from(row[0]);
    let generation = row[1];
    let index = octets::get_u32(row, NEXT);
    print!(rt; " {direction} {generation} {index}")
}

// How many rows are all shown.
const FEW: usize = 8;

// The rows if they are few, else the last alone.
fn show_rows(rt: &impl Print, rows: &[[u8; KEY_WIDTH]]) -> io::Result<()> {
    if FEW < rows.len() {
        print!(rt; ", last")?;
        return match rows.last() {
            Some(row) => show_row(rt, row),
            None => Ok(()),
        };
    }
    for row in rows {
        print!(rt; ",")?;
        show_row(rt, row)?;
    }
    Ok(())
}

// A prime number.
const MODULUS: u64 = 1_000_003;

// A number that every byte of the area and its place goes into: the bytes are the digits of a number to the base 31, of which this is the rest.
fn sum(answer: &[u8]) -> u64 {
    answer
        .iter()
        .fold(0, |acc, b| (acc % MODULUS * 31 + u64::from(*b)) % MODULUS)
}

// Are the bytes behind what is listed as they were? And what stands in the whole area.
fn show_rest(rt: &impl Print, behind: &[u8], answer: &[u8]) -> io::Result<()> {
    let rest = if behind.iter().all(|b| *b == FILL) {
        "kept"
    } else {
        "changed"
    };
    println!(rt; ", rest {rest}, sum {}", sum(answer))
}

// What a call answered, and what stands in the whole area.
fn show_answer(rt: &impl Print, said: Result<usize, Refusal>, answer: &[u8]) -> io::Result<()> {
    match said {
        Err(why) => {
            print!(rt; ": refused {}", why.number())?;
            show_rest(rt, answer, answer)
        }
        Ok(n) => {
            let rows: &[[u8; KEY_WIDTH]] = answer.as_chunks().0;
            let (listed, behind) = rows.split_at(n.min(rows.len()));
            print!(rt; ": listed {n}")?;
            show_rows(rt, listed)?;
            show_rest(rt, behind.as_flattened(), answer)
        }
    }
}

// Runs the call with an answer area of the size. (The lesser of the size and the array's: the check asks that a slice ends inside its array, and `size`
// may be any number.)
fn run(rt: &impl Print, what: &str, skipped: &[u8], chains: &[u8], size: usize) -> io::Result<()> {
    let mut area = [FILL; SKIPPED * KEY_WIDTH];
    let n = size.min(area.len());
    print!(rt; "{what}")?;
    let said = chain::window(skipped, chains, &mut area[..n]);
    show_answer(rt, said, &area)
}

// The same, with one chain and the least area that is enough.
fn run_one(rt: &impl Print, what: &str, skipped: &[[u8; KEY_WIDTH]], next: u64) -> io::Result<()> {
    let skipped = skipped.as_flattened();
    run(rt, what, skipped, &chain_row(b'I', 0, next), ANSWER)
}

// The same, with any chains.
fn run_whole(
    rt: &impl Print,
    what: &str,
    skipped: &[[u8; KEY_WIDTH]],
    chains: &[[u8; CHAIN_WIDTH]],
) -> io::Result<()> {
    run(
        rt,
        what,
        skipped.as_flattened(),
        chains.as_flattened(),
        ANSWER,
    )
}

// ---- the cases

// How many are skipped.
fn counts(rt: &impl Print, skipped: &[[u8; KEY_WIDTH]; SKIPPED]) -> io::Result<()> {
    run_one(rt, "0 skipped, next 7", &[], 7)?;
    run_one(rt, "1 skipped, next 7", &skipped[..1], 7)?;
    run_one(rt, "499 skipped, next 7", &skipped[..499], 7)?;
    run_one(rt, "500 skipped, next 7", &skipped[..500], 7)?;
    run_one(rt, "501 skipped, next 7", &skipped[..501], 7)
}

fn no_chain(rt: &impl Print, skipped: &[[u8; KEY_WIDTH]; SKIPPED]) -> io::Result<()> {
    run_whole(rt, "0 skipped, no chain", &[], &[])?;
    run_whole(rt, "500 skipped, no chain", &skipped[..500], &[])?;
    run(rt, "answer of 0, nothing to list", &[], &[], 0)
}

// Where a chain stands.
fn one_chain(rt: &impl Print, skipped: &[[u8; KEY_WIDTH]; SKIPPED]) -> io::Result<()> {
    run_one(rt, "498 skipped, next 0", &skipped[..498], 0)?;
    let first = &skipped[..1];
    run_one(rt, "1 skipped, next 2^32 - 3", first, 0xFFFF_FFFD)?;
    run_one(rt, "1 skipped, next 2^32 - 1", first, 0xFFFF_FFFF)?;
    run_one(rt, "1 skipped, next 2^32", first, 0x1_0000_0000)?;
    run_one(rt, "1 skipped, next 2^32 + 1", first, 0x1_0000_0001)?;
    run_one(rt, "1 skipped, next 2^64 - 1", first, u64::MAX)
}

// Several chains: the last is listed first.
fn several(rt: &impl Print, skipped: &[[u8; KEY_WIDTH]; SKIPPED]) -> io::Result<()> {
    let ends = chains(0xFFFF_FFFF, 0xFFFF_FFFE, 0xFFFF_FFFD);
    run_whole(rt, "two chains at the end", &[], &ends[..2])?;
    run_whole(rt, "three chains at the end", &[], &ends)?;
    let many = "496 skipped, three chains at the end";
    run_whole(rt, many, &skipped[..496], &ends)?;
    let mixed = chains(7, 0x1_0000_0000, 0xFFFF_FFFE);
    let three = "490 skipped, next 7, 2^32, 2^32 - 2";
    run_whole(rt, three, &skipped[..490], &mixed)?;
    let two = "499 skipped, two chains";
    run_whole(rt, two, &skipped[..499], &mixed[..2])?;
    let above = chains(0, 0x1_0000_0001, 0);
    run_whole(rt, "0 skipped, next 0, 2^32 + 1, 0", &[], &above)
}

// Rows that are not whole.
fn shapes(rt: &impl Print, skipped: &[[u8; KEY_WIDTH]; SKIPPED]) -> io::Result<()> {
    let skipped = skipped.as_flattened();
    let three = chains(7, 8, 9);
    let rows = three.as_flattened();
    let chain = &rows[..CHAIN_WIDTH];
    run(rt, "5 bytes of skipped rows", &skipped[..5], chain, ANSWER)?;
    run(rt, "7 bytes of skipped rows", &skipped[..7], chain, ANSWER)?;
    let key = &skipped[..KEY_WIDTH];
    run(rt, "9 bytes of chain rows", key, &rows[..9], ANSWER)?;
    run(rt, "11 bytes of chain rows", key, &rows[..11], ANSWER)
}

// Directions that are neither I nor R.
fn directions(rt: &impl Print, skipped: &[[u8; KEY_WIDTH]; SKIPPED]) -> io::Result<()> {
    let keys = [*b"RRRRRR", *b"iRRRRR"];
    let first = "second skipped direction i, first alone";
    run_whole(rt, first, &keys[..1], &[])?;
    run_whole(rt, "second skipped direction i", &keys, &[])?;
    let rows = three_chains([7, 8, 9], 0);
    let two = "third chain direction 0, first two alone";
    run_whole(rt, two, &skipped[..499], &rows[..2])?;
    run_whole(rt, "third chain direction 0", &skipped[..499], &rows)
}

// Sizes of the answer area, and the order of the refusals.
fn sizes(rt: &impl Print, skipped: &[[u8; KEY_WIDTH]; SKIPPED]) -> io::Result<()> {
    let skipped = skipped.as_flattened();
    let three = chains(7, 0, 0);
    let rows = three.as_flattened();
    let key = &skipped[..KEY_WIDTH];
    let chain = &rows[..CHAIN_WIDTH];
    run(rt, "answer of 2,999", key, chain, ANSWER - 1)?;
    run(rt, "answer of 3,000", key, chain, ANSWER)?;
    run(rt, "answer of 3,001", key, chain, ANSWER + 1)?;
    let whole = "answer of 2,999, rows not whole";
    run(rt, whole, &skipped[..5], &rows[..11], ANSWER - 1)?;
    let many = "answer of 2,999, 501 skipped";
    run(rt, many, skipped, chain, ANSWER - 1)
}

// The lengths under 5,000 that are a bucket.
fn buckets(rt: &impl Print) -> io::Result<()> {
    print!(rt; "buckets:")?;
    for n in 0..5_000 {
        if chain::is_bucket(n) {
            print!(rt; " {n}")?;
        }
    }
    println!(rt)
}

// Each byte that is a direction, and the label of that direction.
fn labels(rt: &impl Print) -> io::Result<()> {
    print!(rt; "directions:")?;
    for b in 0..=u8::MAX {
        if let Some(d) = Dir::from_label(b) {
            print!(rt; " {b} as {}", d.label())?;
        }
    }
    println!(rt)
}

fn main(rt: HostRuntime) -> io::Result<()> {
    let rt = Tried(rt);
    let skipped = skipped_keys();
    labels(&rt)?;
    buckets(&rt)?;
    counts(&rt, &skipped)?;
    no_chain(&rt, &skipped)?;
    one_chain(&rt, &skipped)?;
    several(&rt, &skipped)?;
    shapes(&rt, &skipped)?;
    directions(&rt, &skipped)?;
    sizes(&rt, &skipped)
}
