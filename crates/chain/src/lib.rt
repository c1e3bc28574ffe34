// chain.rs: the direction of a message chain, the lengths of an inner plaintext, and the window of keys that a receiver could
// still derive.
#![tactic(auto)]

ghost use Rattle.std.specs.Prelude.{◌≡◌, ◌/◌, ◌<◌, ◌≤◌, length};
ghost use Rattle.octets.specs.Bytes.{splice};
ghost use Rattle.table.specs.Lists.{any};
ghost use Rattle.table.specs.Rows.{join, all_rows};
ghost use Rattle.chain.specs.Chain.{dir_label, dir_of, no_dir, is_bucket, inner_of, key_row, listed_keys, chains_keys, ChainsListed, next_above, wrong_table, wrong_rows, window_says, window_number, window_area};
ghost use Rattle.courier_core.specs.Core.{number_of};

use courier_core::Refusal;

// The bytes that sealing adds to an inner plaintext.
pub const TAG_LEN: usize = 16;

// Skipped keys that a receiver holds for a contact.
pub const MAX_SKIPPED: usize = 500;

// The bytes of a key's row, direction, generation and index; and of a chain's, where its next index has eight bytes. NEXT is where a row's index stands, in
// either row: behind the direction and the generation, so that it is their length too.
pub const KEY_WIDTH: usize = 6;

pub const CHAIN_WIDTH: usize = 10;

pub const NEXT: usize = 2;

// The bytes of so many keys' rows: the area that a window is written to.
pub const ANSWER: usize = MAX_SKIPPED * KEY_WIDTH;

// How many indices there are: a chain's next may be this one past the last.
const INDICES: u64 = 1 << 32;

// The direction of a message chain, named after the sender's role.
#[derive(Clone, Copy, PartialEq, Eq)]
pub enum Dir {
    I,
    R,
}

impl Dir {
    // chain.rs's own name. (A match, and no numbers of the enum: `from_label` names each letter again either way.)
    pub fn label(self) -> u8
        ensures { result ≡ dir_label self }
    {
        match self {
            Dir::I => b'I',
            Dir::R => b'R',
        }
    }

    // The inverse. A `TryFrom` would need an error type, which says no more than `None`.
    pub fn from_label(b: u8) -> Option<Dir>
        ensures { result ≡ dir_of b }
    {
        match b {
            b'I' => Some(Dir::I),
            b'R' => Some(Dir::R),
            _ => None,
        }
    }
}

// How long what a ciphertext of len bytes seals is: none where len is less than the tag.
pub fn inner_of(len: usize) -> Option<usize>
    ensures { result ≡ inner_of len }
{
    len.checked_sub(TAG_LEN)
}

// Is n the length of an inner plaintext?
pub fn is_bucket(n: usize) -> bool
    ensures { result ≡ is_bucket n }
{
    matches!(n, 32 | 64 | 128 | 256 | 512 | 1024 | 2048 | 4048)
}

// Is the byte no direction's?
pub fn no_dir(b: u8) -> bool
    ensures { result ≡ no_dir (dir_of b) }
{
    Dir::from_label(b).is_none()
}

// Are the bytes not whole rows of the width, or does a row begin with a byte that is no direction? A width above 0 is what the
// division asks, as in `table`: both callers give a constant.
#[tactic(auto, unfolding(crate::specs::Chain::wrong_table, table::specs::Rows::ragged))]
fn wrong_table(area: &[u8], width: usize) -> bool
    requires { 0 < width }
    ensures { result ≡ wrong_table width area.now }
{
    let n = area.len() / width;
    0 < area.len() % width || table::any(area, width, n, |row| no_dir(row[0]))
}

// Has a chain row a next above the indices that there are?
fn nexts_above(chains: &[u8]) -> bool
    ensures { result ≡ any next_above (all_rows 10 chains.now) }
{
    table::any(chains, CHAIN_WIDTH, chains.len() / CHAIN_WIDTH, |chain| {
        INDICES < octets::get_u64(chain, NEXT)
    })
}

// Is there anything in the rows that number 12 refuses?
#[tactic(auto, unfolding(crate::specs::Chain::wrong_rows))]
fn wrong_rows(skipped: &[u8], chains: &[u8]) -> bool
    ensures { result ≡ wrong_rows skipped.now chains.now }
{
    wrong_table(skipped, KEY_WIDTH)
        || wrong_table(chains, CHAIN_WIDTH)
        || MAX_SKIPPED < skipped.len() / KEY_WIDTH
        || nexts_above(chains)
}

// A key's row: the direction and the generation of its chain, and its index.
#[tactic(auto, using(crate::proofs::Keys::key_made), unfolding(octets::specs::Bytes::part))]
fn key_row(chain: &[u8], idx: u32) -> [u8; KEY_WIDTH]
    requires { 2 ≤ length chain.now }
    ensures { result ≡ key_row chain.now idx }
{
    let mut row = [0u8; KEY_WIDTH];
    octets::copy_in(&mut row, 0, &chain[0..NEXT]);
    octets::put_u32(&mut row, NEXT, idx);
    row
}

// Lists the keys of a chain from its next on, as long as there are room and indices, and answers how many.
// (Not `chunks_exact_mut`: after it, a proof knows only the length of `room`.)
#[tactic(auto, using(octets::proofs::Parts::splice_nil, crate::proofs::Keys::keys_put, crate::proofs::Keys::listed_all), unfolding(crate::specs::Chain::count, table::specs::Rows::join))]
fn list_chain(room: &mut [u8], chain: &[u8]) -> usize
    requires { length chain.now ≡ 10 }
    ensures value { result ≡ length (listed_keys (length room.old / 6) chain.now) }
    ensures room_after { room.new ≡ splice room.old 0 (join (listed_keys (length room.old / 6) chain.now)) }
{
    let next = octets::get_u64(chain, NEXT);
    let left = INDICES.saturating_sub(next);
    let n = left.min((room.len() / KEY_WIDTH) as u64) as usize;
    for i in 0..n {
        octets::put_array(
            room,
            i * KEY_WIDTH,
            key_row(chain, (next + i as u64) as u32),
        );
    }
    n
}

// Lists the keys of the chains, from the last chain to the first, and answers how many. (Not `chunks_exact(..).rev()`: tried, and its loop asks for
// a measure and for laws of the reversed iterator, which a range does not.)
#[tactic(auto, using(crate::proofs::Keys::listed_few))]
fn list_chains(room: &mut [u8], chains: &[u8]) -> usize
    ensures { ChainsListed (chains_keys (length room.old / 6) (all_rows 10 chains.now)) room.old room.new result }
{
    let mut n = 0;
    for i in (0..chains.len() / CHAIN_WIDTH).rev() {
        let at = i * CHAIN_WIDTH;
        n += list_chain(&mut room[n * KEY_WIDTH..], &chains[at..at + CHAIN_WIDTH]);
    }
    n
}

// `Receiver::window`: writes a row for each message key that a receiver could still derive, from the skipped keys and the chains
// that it holds, and answers how many.
#[tactic(auto, using(crate::proofs::Keys::right_rows), unfolding(crate::specs::Chain::window_says, crate::specs::Chain::window_number, crate::specs::Chain::window_area, crate::specs::Chain::window_tests))]
pub fn window(skipped: &[u8], chains: &[u8], answer: &mut [u8]) -> Result<usize, Refusal>
    ensures value { result ≡ window_says answer.old skipped.now chains.now }
    ensures number { number_of result ≡ window_number answer.old skipped.now chains.now }
    ensures answer_after { answer.new ≡ window_area answer.old skipped.now chains.now }
{
    if answer.len() < ANSWER {
        return Err(Refusal::ShortArea);
    }
    if wrong_rows(skipped, chains) {
        return Err(Refusal::WindowRows);
    }
    octets::copy_in(answer, 0, skipped);
    let listed = list_chains(&mut answer[skipped.len()..ANSWER], chains);
    Ok(skipped.len() / KEY_WIDTH + listed)
}
