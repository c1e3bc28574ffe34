// kdf.rs: labelled keys, tags and hashes.
#![tactic(auto)]

ghost use Rattle.std.specs.Prelude.{◌≡◌, ◌≤◌, length, IfOk};
ghost use Rattle.hmac.specs.Hkdf.{longest};
ghost use Rattle.kdf.specs.Kdf.{longest_label, longest_tag, head as head_of, head_as, tag as tag_of, mac as mac_of, kdf as kdf_of, hash as hash_of, commit as commit_of, key_as, digest_as, told, kept};

use hasher::Hasher;
use hasher::parts::Parts;
use octets::get_array;
use sha384::DIGEST;

// A label's head: the length of prefix and label in two bytes, and this prefix.
const PREFIX: &[u8; PREFIX_LEN] = b"cairn-r1 ";

const PREFIX_LEN: usize = 9;

const HEAD: usize = 2 + PREFIX_LEN;

// The longest label: `cairn-r1 ` and the label have a length of two bytes.
pub const LONGEST_LABEL: usize = 65_535 - PREFIX_LEN;

// The longest tag: all bytes of HMAC.
const LONGEST_TAG: usize = DIGEST;

// Why a lent area stays as it is. A label that is too long is the answer also where the area is too long.
#[derive(Clone, Copy, PartialEq, Eq)]
pub enum Refused {
    LabelTooLong,
    OutTooLong,
}

// The head of a label whose length fits. (Where hmac takes it, head, label and the rest stand as a literal of Parts: made by a function, both
// proofs would rewrite by its equation. Not one function that tests and makes the head: its callers' proofs would have to take the head's
// bytes and the label's bound, which Parts asks for, out of its answer, by laws that are longer than the tests.)
fn head_of(label: &[u8]) -> [u8; HEAD]
    requires { length label.now ≤ longest_label }
    ensures { result ≡ head_of label.now }
{
    let mut bytes = [0; HEAD];
    octets::put_u16(&mut bytes, 0, (PREFIX_LEN + label.len()) as u16);
    octets::copy_in(&mut bytes, 2, PREFIX);
    bytes
}

// `labelled`, but for the label itself, which stands behind the head. None: the label's length does not fit two bytes.
pub fn labelled(label: &[u8]) -> Option<[u8; HEAD]>
    ensures { result ≡ head_as label.now }
{
    if LONGEST_LABEL < label.len() {
        return None;
    }
    Some(head_of(label))
}

// The answer for an area of n bytes, where at most `most` can be made.
fn allowed(label: &[u8], most: usize, n: usize) -> Result<(), Refused>
    ensures value { result ≡ told label.now most n }
    ensures fits { IfOk result (λ _. (length label.now ≤ longest_label) × (n ≤ most)) }
{
    if LONGEST_LABEL < label.len() {
        return Err(Refused::LabelTooLong);
    }
    if most < n {
        return Err(Refused::OutTooLong);
    }
    Ok(())
}

// `tag`: the first bytes of HMAC of `labelled(label)` and x, as many as out has.
pub fn tag(key: &[u8], label: &[u8], x: &[u8], out: &mut [u8]) -> Result<(), Refused>
    ensures value { result ≡ told label.now longest_tag (length out.old) }
    ensures out_after { out.new ≡ kept label.now longest_tag (tag_of (length out.old) key.now label.now x.now) out.old }
{
    allowed(label, LONGEST_TAG, out.len())?;
    let head = head_of(label);
    let text = Parts {
        first: &head,
        second: label,
        third: x,
    };
    let digest = hmac::hmac_parts(key, text);
    let n = out.len();
    out.copy_from_slice(&digest[..n]);
    Ok(())
}

// `mac`: a tag of 16 bytes.
pub fn mac(key: &[u8], label: &[u8], x: &[u8]) -> Option<[u8; 16]>
    ensures { result ≡ key_as label.now (mac_of key.now label.now x.now) }
{
    let mut bytes = [0; 16];
    tag(key, label, x, &mut bytes).ok()?;
    Some(bytes)
}

// `kdf`: fills out with HKDF's output, for the info `labelled(label)` and info. (Extract and expand, as in `hmac::hkdf`: that takes an info in
// one part, and tests the output's limit again.)
pub fn kdf(
    ikm: &[u8],
    salt: &[u8],
    label: &[u8],
    info: &[u8],
    out: &mut [u8],
) -> Result<(), Refused>
    ensures value { result ≡ told label.now longest (length out.old) }
    ensures out_after { out.new ≡ kept label.now longest (kdf_of ikm.now salt.now label.now info.now (length out.old)) out.old }
{
    allowed(label, hmac::LONGEST, out.len())?;
    let head = head_of(label);
    let info = Parts {
        first: &head,
        second: label,
        third: info,
    };
    let prk = hmac::extract(salt, ikm);
    hmac::expand(prk, info, out);
    Ok(())
}

// `kdf` for 16 bytes. (As `mac`, of another function: crate courier calls each of the two once.)
pub fn kdf_16(ikm: &[u8], salt: &[u8], label: &[u8], info: &[u8]) -> Option<[u8; 16]>
    ensures { result ≡ key_as label.now (kdf_of ikm.now salt.now label.now info.now 16) }
{
    let mut bytes = [0; 16];
    kdf(ikm, salt, label, info, &mut bytes).ok()?;
    Some(bytes)
}

// `hash` of a labelled label, whose length fits, and x: SHA-384 of both.
fn hash_of(label: &[u8], x: &[u8]) -> [u8; DIGEST]
    requires { length label.now ≤ longest_label }
    ensures { result ≡ hash_of label.now x.now }
{
    let head = head_of(label);
    Hasher::new().update_parts(&head, label, x).finish()
}

// `hash`. None: the label's length does not fit two bytes. (Tested as in `labelled`: `hash_of` makes the head itself, so that
// `commit`, whose label fits, need not test.)
pub fn hash(label: &[u8], x: &[u8]) -> Option<[u8; DIGEST]>
    ensures { result ≡ digest_as label.now (hash_of label.now x.now) }
{
    if LONGEST_LABEL < label.len() {
        return None;
    }
    Some(hash_of(label, x))
}

// `commit`: the first 32 bytes of the hash of the label `commit` and a nonce.
pub fn commit(nonce: [u8; 16]) -> [u8; 32]
    ensures { result ≡ commit_of nonce }
{
    let digest = hash_of(b"commit", &nonce);
    get_array(&digest, 0)
}
