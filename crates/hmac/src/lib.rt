// HMAC (FIPS 198-1) and HKDF (RFC 5869) with SHA-384.
#![tactic(auto)]

ghost use Rattle.std.specs.Prelude.{◌≡◌, List, [], ◌∷◌, ◌++◌, ℕ, ◌+◌, ◌*◌, ◌≤◌, ◌<◌, length};
ghost use Rattle.hasher.specs.Taken.{Taken};
ghost use Rattle.hasher.specs.Parts.{joined};
ghost use Rattle.hmac.specs.Hmac.{K0, padded, ipad, keyed, hmac as hmac_of};
ghost use Rattle.hmac.specs.Hkdf.{extract as extract_of, expand as expand_of, longest, derived, filled};

use hasher::Hasher;
use hasher::parts::Parts;
use sha_block::BLOCK;
use sha384::DIGEST;

// The bytes of the inner and of the outer pad.
const IPAD: u8 = 0x36;

const OPAD: u8 = 0x5c;

// Section 4, steps 1 to 3: the key as one block.
fn block_key(key: &[u8]) -> [u8; BLOCK]
    ensures { result ≡ K0 key.now }
{
    let mut k0 = [0; BLOCK];
    if BLOCK < key.len() {
        let hashed = sha384::hash(key);
        octets::copy_in(&mut k0, 0, &hashed);
        return k0;
    }
    octets::copy_in(&mut k0, 0, key);
    k0
}

// Steps 4 and 7: the block xor a pad. (By a loop: std's laws have one for it, `map_over_more`, and none for an array's `map`.)
#[tactic(auto, unfolding(crate::specs::Hmac::padded))]
fn pad(k0: [u8; BLOCK], byte: u8) -> [u8; BLOCK]
    ensures { result ≡ padded k0 byte }
{
    let mut out = k0;
    for x in &mut out {
        *x ^= byte;
    }
    out
}

// Steps 4 and 5, of a text that comes in parts: a hasher that is to take them.
fn begin(k0: [u8; BLOCK]) -> Hasher
    ensures taken { Taken result (padded k0 ipad) }
    ensures len_value { result.len ≡ 128 }
{
    let inner = pad(k0, IPAD);
    Hasher::new().update(&inner)
}

// Steps 6 to 9, with the hasher that has taken the text.
#[tactic(auto, unfolding(crate::specs::Hmac::keyed))]
fn end(k0: [u8; BLOCK], s: Hasher) -> [u8; DIGEST]
    ensures { (text : List ℕ) → Taken s (padded k0 ipad ++ text) → result ≡ keyed k0 text }
{
    let h = s.finish();
    let outer = pad(k0, OPAD);
    sha384::hash_after(&outer, &h)
}

// HMAC of a text in parts.
pub fn hmac_parts(key: &[u8], text: Parts<'_>) -> [u8; DIGEST]
    ensures { result ≡ hmac_of key.now (joined text.entry) }
{
    let k0 = block_key(key);
    let s = begin(k0).update_parts(text.first, text.second, text.third);
    end(k0, s)
}

// HMAC of a text under a key, both of any length.
pub fn hmac(key: &[u8], text: &[u8]) -> [u8; DIGEST]
    ensures { result ≡ hmac_of key.now text.now }
{
    hmac_parts(key, Parts::one(text))
}

// RFC 5869, 2.2.
#[tactic(auto, unfolding(crate::specs::Hkdf::extract))]
pub fn extract(salt: &[u8], ikm: &[u8]) -> [u8; DIGEST]
    ensures { result ≡ extract_of salt.now ikm.now }
{
    if salt.is_empty() {
        return hmac(&[0; DIGEST], ikm);
    }
    hmac(salt, ikm)
}

// 2.3: HMAC of T(i - 1) | info | i, which is T(i).
fn next_block(k0: [u8; BLOCK], previous: &[u8], info: Parts<'_>, i: u8) -> [u8; DIGEST]
    requires previous_len_bound { length previous.now ≤ 48 }
    ensures { result ≡ keyed k0 (previous.now ++ joined info.entry ++ (i ∷ [])) }
{
    let s = begin(k0)
        .update(previous)
        .update_parts(info.first, info.second, info.third)
        .update(&[i]);
    end(k0, s)
}

// 2.3: T(1) to T(N), one behind the other, as far as there is room. T(i) is read where it was written: T(0) has no bytes.
// Not `chunks_mut`: after it, a proof knows only the length of `out`.
pub fn expand(prk: [u8; DIGEST], info: Parts<'_>, out: &mut [u8])
    requires { length out.old ≤ longest }
    ensures { out.new ≡ expand_of prk (joined info.entry) (length out.old) }
{
    let k0 = block_key(&prk);
    for i in 0..out.len().div_ceil(DIGEST) {
        let previous = &out[DIGEST * i.saturating_sub(1)..DIGEST * i];
        let next = next_block(k0, previous, info, (i + 1) as u8);
        let room = (out.len() - DIGEST * i).min(DIGEST);
        octets::copy_in(out, DIGEST * i, &next[..room]);
    }
}

// The longest output that the standard allows.
pub const LONGEST: usize = 255 * DIGEST;

// The output is longer than that.
#[derive(Clone, Copy, PartialEq, Eq)]
pub struct TooLong;

// HKDF: fills out, or leaves it as it is where it is longer than the standard allows.
#[tactic(auto, unfolding(crate::specs::Hkdf::derived, crate::specs::Hkdf::filled, crate::specs::Hkdf::hkdf))]
pub fn hkdf(ikm: &[u8], salt: &[u8], info: &[u8], out: &mut [u8]) -> Result<(), TooLong>
    ensures value { result ≡ derived (length out.old) }
    ensures out_after { out.new ≡ filled ikm.now salt.now info.now out.old }
{
    if LONGEST < out.len() {
        return Err(TooLong);
    }
    let prk = extract(salt, ikm);
    expand(prk, Parts::one(info), out);
    Ok(())
}
