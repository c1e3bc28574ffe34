// SHA-384 of a message that comes in parts, none of which is copied but the bytes of an unfinished block.
#![tactic(auto)]

ghost use Rattle.std.specs.Prelude.{◌≡◌, List, [], ◌++◌, ℕ, ◌+◌, ◌%◌, ◌^◌, ◌≤◌, ◌<◌, length};
ghost use Rattle.sha384.specs.Sha384.{sha384};
ghost use Rattle.hasher.specs.Taken.{Taken, Adds};
ghost use Rattle.hasher.specs.Parts.{joined};

pub mod parts;

use parts::Parts;
use sha_block::BLOCK;

impl<'a> Parts<'a> {
    // A text in one part.
    pub fn one(text: &'a [u8]) -> Parts<'a>
        ensures { joined result ≡ text.now }
    {
        Parts {
            first: b"",
            second: b"",
            third: text,
        }
    }
}

// The hash value after the whole blocks, the bytes after them (the first len % BLOCK of block), and how many bytes in all.
#[derive(Drop)]
pub struct Hasher {
    pub state: [u64; 8],
    pub block: [u8; BLOCK],
    pub len: usize,
}

impl Hasher {
    pub fn new() -> Hasher
        ensures { Taken result [] }
    {
        Hasher {
            state: sha384::start(),
            block: [0; BLOCK],
            len: 0,
        }
    }

    // Puts m behind what is held: a block at most, with what is held.
    fn push(self, m: &[u8]) -> Hasher
        requires m_bound { (self.len % 128 + length m.now ≤ 128) × (self.len + length m.now < 2 ^ 64) }
        ensures { Adds self m.now result }
    {
        let Hasher {
            state,
            mut block,
            len,
        } = self;
        let at = len % BLOCK;
        octets::copy_in(&mut block, at, m);
        let full = at + m.len() == BLOCK;
        Hasher {
            state: if full {
                sha384::blocks(state, &block)
            } else {
                state
            },
            block,
            len: len + m.len(),
        }
    }

    // Whole blocks, where no bytes are held.
    fn push_blocks(self, m: &[u8]) -> Hasher
        requires m_bound { (length m.now % 128 ≡ 0) × (self.len % 128 ≡ 0) × (self.len + length m.now < 2 ^ 64) }
        ensures { Adds self m.now result }
    {
        let Hasher { state, block, len } = self;
        Hasher {
            state: sha384::blocks(state, m),
            block,
            len: len + m.len(),
        }
    }

    // The bytes of m, after those that it has taken: a block that was begun is filled up, and whole blocks are hashed where they lie.
    pub fn update(self, m: &[u8]) -> Hasher
        requires m_bound { self.len + length m.now < 2 ^ 64 }
        ensures { Adds self m.now result }
    {
        let room = BLOCK - self.len % BLOCK;
        if m.len() < room {
            return self.push(m);
        }
        let (front, rest) = m.split_at(room % BLOCK);
        let (whole, end) = rest.split_at(rest.len() - rest.len() % BLOCK);
        self.push(front).push_blocks(whole).push(end)
    }

    // The bytes of three parts, one behind the other.
    pub fn update_parts(self, first: &[u8], second: &[u8], third: &[u8]) -> Hasher
        requires third_bound { self.len + length first.now + length second.now + length third.now < 2 ^ 64 }
        ensures { Adds self (first.now ++ second.now ++ third.now) result }
    {
        self.update(first).update(second).update(third)
    }

    // The hash of what it has taken.
    pub fn finish(self) -> [u8; sha384::DIGEST]
        ensures { (x : List ℕ) → Taken self x → result ≡ sha384 x }
    {
        let held = self.len % BLOCK;
        sha384::digest_of(sha384::hash_rest(self.state, self.len - held, &self.block[..held]))
    }
}
