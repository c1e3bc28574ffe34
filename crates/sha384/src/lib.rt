// SHA-384 of a message of bytes: FIPS 180-4. The message is read where it lies: only its padded end is built.
#![tactic(auto)]

ghost use Rattle.std.specs.Prelude.{◌≡◌, ◌++◌, ◌+◌, ◌*◌, ◌/◌, ◌%◌, ◌^◌, ◌<◌, length, take, drop};
ghost use Rattle.sha384.specs.Padding.{zero_bits, padding};
ghost use Rattle.sha384.specs.Sha384.{H0, hashed, digest, sha384};

use octets::{copy_in, put_array, put_u64};
use sha_block::{BLOCK, block};

// The bytes at the end of a padded message that say its length in bits.
const LENGTH: usize = 16;

// The bytes of a digest.
pub const DIGEST: usize = 48;

// 5.3.4: the initial hash value.
#[tactic(auto, unfolding(crate::specs::Sha384::H0))]
pub fn start() -> [u64; 8]
    ensures { result ≡ H0 }
{
    [
        0xcbbb_9d5d_c105_9ed8,
        0x629a_292a_367c_d507,
        0x9159_015a_3070_dd17,
        0x152f_ecd8_f70e_5939,
        0x6733_2667_ffc0_0b31,
        0x8eb4_4a87_6858_1511,
        0xdb0c_2e0d_64f9_8fa7,
        0x47b5_481d_befa_4fa4,
    ]
}

// The hash value after the whole blocks of m, from the hash value g. (By an index: block i is the part of m at 128 * i, as the standard numbers them, so that
// the loop's invariant is the definition; by `as_chunks` it would go over laws of chunks. An array is assigned through a local, as in `sha_block`.)
#[tactic(auto, unfolding(crate::specs::Sha384::hashed, crate::specs::Sha384::next, sha_block::specs::Loop::turns))]
pub fn blocks(g: [u64; 8], m: &[u8]) -> [u64; 8]
    ensures { result ≡ hashed g m.now }
{
    let mut h = g;
    for i in 0..m.len() / BLOCK {
        let next = block(h, m, BLOCK * i);
        h = next;
    }
    h
}

// 5.1.2: how many bytes the end of a message of n bytes takes with its padding: one block, or two.
fn end_of(n: usize) -> usize
    ensures { result ≡ n % 128 + 17 + zero_bits (8 * n) / 8 }
{
    if n % BLOCK < BLOCK - LENGTH {
        BLOCK
    } else {
        2 * BLOCK
    }
}

// 5.1.2: the end of a message of n bytes with its padding, e bytes in all. m is the message from one of its blocks on.
fn padded_end(m: &[u8], n: usize, e: usize) -> [u8; 2 * BLOCK]
    requires { (length m.now % 128 ≡ n % 128) × (e ≡ n % 128 + 17 + zero_bits (8 * n) / 8) }
    ensures { take e result ≡ drop (128 * (length m.now / 128)) m.now ++ padding n }
{
    let from = BLOCK * (m.len() / BLOCK);
    let mut x = [0; 2 * BLOCK];
    copy_in(&mut x, 0, &m[from..]);
    x[n % BLOCK] = 0x80;
    put_array(&mut x, e - LENGTH, ((n as u128) << 3).to_be_bytes());
    x
}

// The hash value of a message that ends in m, from the hash value g of its blocks before m, p bytes in all.
#[tactic(auto, using(crate::proofs::Whole::hashed_append))]
pub fn hash_rest(g: [u64; 8], p: usize, m: &[u8]) -> [u64; 8]
    requires { (p % 128 ≡ 0) × (p + length m.now < 2 ^ 64) }
    ensures { result ≡ hashed g (m.now ++ padding (p + length m.now)) }
{
    let h = blocks(g, m);
    let n = p + m.len();
    let e = end_of(n);
    let x = padded_end(m, n, e);
    blocks(h, &x[..e])
}

// 6.5: the digest.
#[tactic(auto, using(crate::proofs::Ends::digested, crate::proofs::Ends::bytes_none))]
pub fn digest_of(h: [u64; 8]) -> [u8; DIGEST]
    ensures { result ≡ digest h }
{
    let mut d = [0; DIGEST];
    for i in 0..6 {
        put_u64(&mut d, 8 * i, h[i]);
    }
    d
}

// SHA-384.
#[tactic(auto, using(crate::proofs::Whole::whole))]
pub fn hash(m: &[u8]) -> [u8; DIGEST]
    ensures { result ≡ sha384 m.now }
{
    digest_of(hash_rest(start(), 0, m))
}

// SHA-384 of a block of 128 bytes with m after it, which HMAC asks for.
#[tactic(auto, using(crate::proofs::Whole::after))]
pub fn hash_after(first: &[u8; BLOCK], m: &[u8]) -> [u8; DIGEST]
    ensures { result ≡ sha384 (first.now ++ m.now) }
{
    let g = block(start(), first, 0);
    digest_of(hash_rest(g, BLOCK, m))
}
