// Bytes in a lent area: runs copied and moved, runs compared, big-endian numbers read and written.
// (Area and index, and not the slice from the index on: each caller would cut it, and owe the same bound.)
#![tactic(auto)]

ghost use Rattle.std.specs.Prelude.{◌≡◌, ◌+◌, ◌^◌, ◌≤◌, ◌<◌, length};
ghost use Rattle.octets.specs.Bytes.{Bytes, splice, part, num, be, low_first, same_bytes};

// Copies src into dst, from index at on.
// Not `copy_from_slice`: of that, a test for overlap stays in every copy of a few bytes, and a window takes 0.61 to 0.69 µs in place of 0.47.
pub fn copy_in(dst: &mut [u8], at: usize, src: &[u8])
    requires { at + length src.now ≤ length dst.old }
    ensures { dst.new ≡ splice dst.old at src.now }
{
    for k in 0..src.len() {
        dst[at + k] = src[k];
    }
}

// The N bytes of area from index at on: a tag, a secret, a number's bytes.
// Not `copy_from_slice`: of that, a test for overlap stays in every load of `same`, and a search of tags takes four to six times as long.
#[tactic(auto, using(crate::proofs::Parts::part_add, crate::proofs::Parts::part_one), unfolding(crate::specs::Bytes::part))]
pub fn get_array<const N: usize>(area: &[u8], at: usize) -> [u8; N]
    requires { at + N ≤ length area.now }
    ensures { result ≡ part area.now at N }
{
    let mut bytes = [0; N];
    for k in 0..N {
        bytes[k] = area[at + k];
    }
    bytes
}

// Writes N bytes into area, from index at on.
pub fn put_array<const N: usize>(area: &mut [u8], at: usize, bytes: [u8; N])
    requires { at + N ≤ length area.old }
    ensures { (area.new ≡ splice area.old at bytes.entry) × (length bytes.entry ≡ N) }
{
    copy_in(area, at, &bytes);
}

// Moves n bytes of area down, from index from to index to: the first byte first.
// Here and in `move_up` not `copy_within`: the compiler turns each of these two loops into a call of memmove, and that one not; with it, a tomb
// that moves two tables takes a third longer.
pub fn move_down(area: &mut [u8], to: usize, from: usize, n: usize)
    requires { (to ≤ from) × (from + n ≤ length area.old) }
    ensures { area.new ≡ splice area.old to (part area.old from n) }
{
    for k in 0..n {
        area[to + k] = area[from + k];
    }
}

// Moves n bytes of area up, from index from to index to: the last byte first.
pub fn move_up(area: &mut [u8], to: usize, from: usize, n: usize)
    requires { (from ≤ to) × (to + n ≤ length area.old) }
    ensures { area.new ≡ splice area.old to (part area.old from n) }
{
    for k in (0..n).rev() {
        area[to + k] = area[from + k];
    }
}

// Eight bytes as a number, the first the lowest: the compiler makes one load of it, with nothing to swap.
fn low_first(a: &[u8], at: usize) -> u64
    requires { at + 8 ≤ length a.now }
    ensures { (result ≡ low_first (part a.now at 8)) × Bytes a.now }
{
    u64::from_le_bytes(get_array(a, at))
}

// Are the sixteen bytes of area from at on those of the key? Every difference is gathered, whatever the bytes are.
fn same_16(area: &[u8], at: usize, key: &[u8]) -> bool
    requires { (at + 16 ≤ length area.now) × (length key.now ≡ 16) }
    ensures { result ≡ same_bytes (part area.now at 16) key.now }
{
    let first = low_first(area, at) ^ low_first(key, 0);
    let second = low_first(area, at + 8) ^ low_first(key, 8);
    (first | second) == 0
}

// Are the bytes of area from at on those of the key?
// Not `==`: as in `same_16`, every byte is read, whatever came before, and the differences are looked at once (of the machine code:
// docs/DECISIONS.md, 26).
#[tactic(auto, using(crate::proofs::Compare::same_none, crate::proofs::Compare::same_more, crate::proofs::Parts::part_whole))]
fn same_run(area: &[u8], at: usize, key: &[u8]) -> bool
    requires { at + length key.now ≤ length area.now }
    ensures { result ≡ same_bytes (part area.now at (length key.now)) key.now }
{
    let mut acc = 0;
    for k in 0..key.len() {
        acc |= area[at + k] ^ key[k];
    }
    acc == 0
}

// Are the bytes of area from at on those of the key? Tags have 16 bytes and prefixes 8: those take one or two loads and no loop.
pub fn same(area: &[u8], at: usize, key: &[u8]) -> bool
    requires { at + length key.now ≤ length area.now }
    ensures { result ≡ same_bytes (part area.now at (length key.now)) key.now }
{
    if key.len() == 16 {
        return same_16(area, at, key);
    }
    if key.len() == 8 {
        return low_first(area, at) == low_first(key, 0);
    }
    same_run(area, at, key)
}

// Numbers, the highest byte first: a function for each width, as std has one `from_be_bytes` for each type. One for all is a trait
// with the width as its parameter, and an impl for each type with both directions: more than these, and no shorter at a call.
#[tactic(auto, using(crate::proofs::Numbers::num_one))]
pub fn get_u8(area: &[u8], at: usize) -> u8
    requires { at + 1 ≤ length area.now }
    ensures { result ≡ num (part area.now at 1) }
{
    area[at]
}

#[tactic(auto, using(crate::proofs::Numbers::num_read))]
pub fn get_u16(area: &[u8], at: usize) -> u16
    requires { at + 2 ≤ length area.now }
    ensures { result ≡ num (part area.now at 2) }
{
    u16::from_be_bytes(get_array(area, at))
}

#[tactic(auto, using(crate::proofs::Numbers::num_read))]
pub fn get_u32(area: &[u8], at: usize) -> u32
    requires { at + 4 ≤ length area.now }
    ensures { result ≡ num (part area.now at 4) }
{
    u32::from_be_bytes(get_array(area, at))
}

#[tactic(auto, using(crate::proofs::Numbers::num_read))]
pub fn get_u64(area: &[u8], at: usize) -> u64
    requires { at + 8 ≤ length area.now }
    ensures { result ≡ num (part area.now at 8) }
{
    u64::from_be_bytes(get_array(area, at))
}

#[tactic(auto, using(crate::proofs::Parts::set_splice, crate::proofs::Numbers::be_1))]
pub fn put_u8(area: &mut [u8], at: usize, v: u8)
    requires { at + 1 ≤ length area.old }
    ensures { area.new ≡ splice area.old at (be 1 v) }
{
    area[at] = v;
}

#[tactic(auto, unfolding(crate::specs::Bytes::be))]
pub fn put_u16(area: &mut [u8], at: usize, v: u16)
    requires { at + 2 ≤ length area.old }
    ensures { area.new ≡ splice area.old at (be 2 v) }
{
    put_array(area, at, v.to_be_bytes());
}

#[tactic(auto, unfolding(crate::specs::Bytes::be))]
pub fn put_u32(area: &mut [u8], at: usize, v: u32)
    requires { at + 4 ≤ length area.old }
    ensures { area.new ≡ splice area.old at (be 4 v) }
{
    put_array(area, at, v.to_be_bytes());
}

#[tactic(auto, unfolding(crate::specs::Bytes::be))]
pub fn put_u64(area: &mut [u8], at: usize, v: u64)
    requires { at + 8 ≤ length area.old }
    ensures { area.new ≡ splice area.old at (be 8 v) }
{
    put_array(area, at, v.to_be_bytes());
}
