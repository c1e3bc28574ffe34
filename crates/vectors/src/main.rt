// Runs the published vectors of SHA-384 and HMAC-SHA-384, HKDF-SHA-384 on the inputs of RFC 5869, lengths around every padding boundary, and kdf.rs and
// data.rs on fixed inputs, and writes what it got. `stdout` has the values of an independent implementation.
#![tactic(auto)]

use hasher::Hasher;
use hmac::LONGEST;
use kdf::{LONGEST_LABEL, Refused};
use sha384::DIGEST;
use std::{array, fmt, io};
use text::Tried;

// What an area holds before it is lent.
const BEFORE: u8 = 0xa5;

// Bytes in hexadecimal. (state_rows has the same for the 16 bytes of an array.)
#[derive(Drop)]
struct Hex<'a>(&'a [u8]);

impl<'a> fmt::Display for Hex<'a> {
    fn fmt<W: fmt::Write>(&self, f: &mut fmt::Formatter<W>) -> fmt::Result {
        for b in self.0 {
            write!(f, "{b:02x}")?;
        }
        Ok(())
    }
}

// A name or a number, and bytes.
fn print_line(rt: &impl Print, name: impl fmt::Display + Drop, bytes: &[u8]) -> io::Result<()> {
    println!(rt; "{name} {}", Hex(bytes))
}

// The first n bytes, or all where there are fewer. (Two functions, as std has `get` and `get_mut`. replay_calls has the same as `front` and `front_mut`, and
// courier_post the first of them: the crates below all three are the library's, which has no use for them.)
fn first(bytes: &[u8], n: usize) -> &[u8] {
    &bytes[..n.min(bytes.len())]
}

fn first_mut(bytes: &mut [u8], n: usize) -> &mut [u8] {
    let n = n.min(bytes.len());
    &mut bytes[..n]
}

// N bytes that rise by a step, from a first one on, modulo 256.
fn rising<const N: usize>(first: u8, step: u8) -> [u8; N] {
    array::from_fn(|i| first.wrapping_add(step.wrapping_mul((i % 256) as u8)))
}

// ---- SHA-384

fn hash_line(rt: &impl Print, name: &str, m: &[u8]) -> io::Result<()> {
    print_line(rt, name, &sha384::hash(m))
}

fn hashes(rt: &impl Print) -> io::Result<()> {
    println!(rt; "SHA-384, FIPS 180-4 examples")?;
    hash_line(rt, "abc", b"abc")?;
    hash_line(
        rt,
        "two blocks",
        b"abcdefghbcdefghicdefghijdefghijkefghijklfghijklmghijklmnhijklmnoijklmnopjklmnopqklmnopqrlmnopqrsmnopqrstnopqrstu",
    )
}

// A million bytes, in parts.
const PARTS: usize = 16;

fn million() -> [u8; DIGEST] {
    let part = [b'a'; 1_000_000 / PARTS];
    let mut h = Hasher::new();
    for _turn in 0..PARTS {
        h = h.update(&part);
    }
    h.finish()
}

fn hash_lengths(rt: &impl Print) -> io::Result<()> {
    println!(rt; "SHA-384, lengths")?;
    let p = rising::<256>(3, 7);
    for n in [0, 1, 111, 112, 127, 128, 239, 240, 256] {
        print_line(rt, n, &sha384::hash(first(&p, n)))?;
    }
    Ok(())
}

// ---- HMAC

fn hmac_line(rt: &impl Print, name: &str, key: &[u8], text: &[u8]) -> io::Result<()> {
    print_line(rt, name, &hmac::hmac(key, text))
}

fn hmacs(rt: &impl Print) -> io::Result<()> {
    println!(rt; "HMAC-SHA-384, RFC 4231")?;
    hmac_line(rt, "case 1", &[0x0b; 20], b"Hi There")?;
    hmac_line(rt, "case 2", b"Jefe", b"what do ya want for nothing?")?;
    hmac_line(rt, "case 3", &[0xaa; 20], &[0xdd; 50])?;
    hmac_line(rt, "case 4", &rising::<25>(1, 1), &[0xcd; 50])?;
    hmac_line(rt, "case 5", &[0x0c; 20], b"Test With Truncation")?;
    hmac_line(
        rt,
        "case 6",
        &[0xaa; 131],
        b"Test Using Larger Than Block-Size Key - Hash Key First",
    )?;
    hmac_line(
        rt,
        "case 7",
        &[0xaa; 131],
        b"This is a test using a larger than block-size key and a larger than block-size data. The key needs to be hashed before being used by the HMAC algorithm.",
    )
}

fn hmac_lengths(rt: &impl Print) -> io::Result<()> {
    println!(rt; "HMAC-SHA-384, key lengths")?;
    let p = rising::<129>(3, 7);
    for n in [0, 127, 128, 129] {
        print_line(rt, n, &hmac::hmac(first(&p, n), b"Hi There"))?;
    }
    Ok(())
}

// ---- HKDF

fn hkdf_line(
    rt: &impl Print,
    name: impl fmt::Display + Drop,
    ikm: &[u8],
    salt: &[u8],
    info: &[u8],
    out: &mut [u8],
) -> io::Result<()> {
    let _ = hmac::hkdf(ikm, salt, info, out);
    print_line(rt, name, out)
}

// A case with a salt of 13 bytes and an info of 10.
fn hkdf_basic(rt: &impl Print, name: &str, ikm: &[u8]) -> io::Result<()> {
    let salt = rising::<13>(0, 1);
    let info = rising::<10>(0xf0, 1);
    hkdf_line(rt, name, ikm, &salt, &info, &mut [0; 42])
}

fn hkdf_longer(rt: &impl Print) -> io::Result<()> {
    let ikm = rising::<80>(0, 1);
    let salt = rising::<80>(0x60, 1);
    let info = rising::<80>(0xb0, 1);
    hkdf_line(rt, "case 2", &ikm, &salt, &info, &mut [0; 82])
}

// With no salt and no info.
fn hkdf_bare(
    rt: &impl Print,
    name: impl fmt::Display + Drop,
    ikm: &[u8],
    out: &mut [u8],
) -> io::Result<()> {
    hkdf_line(rt, name, ikm, b"", b"", out)
}

fn hkdfs(rt: &impl Print) -> io::Result<()> {
    println!(rt; "HKDF-SHA-384, inputs of RFC 5869")?;
    hkdf_basic(rt, "case 1", &[0x0b; 22])?;
    hkdf_longer(rt)?;
    hkdf_bare(rt, "case 3", &[0x0b; 22], &mut [0; 42])?;
    hkdf_basic(rt, "case 4", &[0x0b; 11])?;
    hkdf_bare(rt, "case 5", &[0x0c; 22], &mut [0; 42])
}

// The longest output, by its hash, and one byte more.
fn hkdf_longest(rt: &impl Print) -> io::Result<()> {
    let mut out = [0; LONGEST];
    let _ = hmac::hkdf(&[0x0b; 22], b"", b"", &mut out);
    println!(rt; "{LONGEST}, its hash {}", Hex(&sha384::hash(&out)))?;
    let mut more = [0; LONGEST + 1];
    match hmac::hkdf(&[0x0b; 22], b"", b"", &mut more) {
        Ok(()) => println!(rt; "{} done", more.len()),
        Err(_) => println!(rt; "{} too long", more.len()),
    }
}

fn hkdf_lengths(rt: &impl Print) -> io::Result<()> {
    println!(rt; "HKDF-SHA-384, lengths")?;
    let mut out = [0; DIGEST + 1];
    for n in [0, 1, DIGEST, DIGEST + 1] {
        hkdf_bare(rt, n, &[0x0b; 22], first_mut(&mut out, n))?;
    }
    hkdf_longest(rt)
}

// ---- kdf.rs

// By value: the bytes, or that the label is too long, and as many zeros.
fn value_line<const N: usize>(
    rt: &impl Print,
    name: &str,
    value: Option<[u8; N]>,
) -> io::Result<()> {
    match value {
        Some(bytes) => print_line(rt, name, &bytes),
        None => println!(rt; "{name} too long {}", Hex(&[0; N])),
    }
}

fn keys(rt: &impl Print) -> io::Result<()> {
    let key = rising::<32>(3, 7);
    value_line(rt, "mac", kdf::mac(&key, b"route", b"I\x01\x07"))?;
    value_line(rt, "kdf", kdf::kdf_16(&key, b"", b"delivered", b""))?;
    let salt = rising::<5>(3, 7);
    let info = rising::<40>(3, 7);
    let made = kdf::kdf_16(&key, &salt, b"mk", &info);
    value_line(rt, "kdf with salt and info", made)
}

fn digest_line(rt: &impl Print, label: &[u8]) -> io::Result<()> {
    value_line(rt, "hash", kdf::hash(label, &rising::<16>(3, 7)))
}

fn commits(rt: &impl Print) -> io::Result<()> {
    print_line(rt, "commit to zeros", &kdf::commit([0; 16]))?;
    print_line(rt, "commit", &kdf::commit(rising::<16>(0, 1)))
}

fn labels(rt: &impl Print) -> io::Result<()> {
    println!(rt; "kdf.rs")?;
    value_line(rt, "before the label route", kdf::labelled(b"route"))?;
    keys(rt)?;
    digest_line(rt, b"delivered")?;
    commits(rt)
}

// What a call for a lent area answered.
#[derive(Drop)]
struct Answer(Result<(), Refused>);

impl fmt::Display for Answer {
    fn fmt<W: fmt::Write>(&self, f: &mut fmt::Formatter<W>) -> fmt::Result {
        f.write_str(match self.0 {
            Ok(()) => "done",
            Err(Refused::LabelTooLong) => "label too long",
            Err(Refused::OutTooLong) => "too long",
        })
    }
}

// A name or the area's length, and what the area holds after the call: the byte `BEFORE` everywhere where the call is refused.
fn tag_sized(
    rt: &impl Print,
    name: impl fmt::Display + Drop,
    label: &[u8],
    out: &mut [u8],
) -> io::Result<()> {
    let answer = Answer(kdf::tag(&rising::<32>(3, 7), label, b"I\x01\x07", out));
    println!(rt; "{name} {answer} {}", Hex(out))
}

fn tags(rt: &impl Print) -> io::Result<()> {
    println!(rt; "kdf.rs, tag")?;
    for n in [0, 1, 16, 32, DIGEST, DIGEST + 1] {
        let mut out = [BEFORE; DIGEST + 1];
        tag_sized(rt, n, b"route", first_mut(&mut out, n))?;
    }
    Ok(())
}

fn kdf_of(label: &[u8], out: &mut [u8]) -> Answer {
    let ikm = rising::<32>(3, 7);
    let salt = rising::<5>(5, 11);
    let info = rising::<40>(9, 13);
    Answer(kdf::kdf(&ikm, &salt, label, &info, out))
}

fn kdf_sized(
    rt: &impl Print,
    name: impl fmt::Display + Drop,
    label: &[u8],
    out: &mut [u8],
) -> io::Result<()> {
    let answer = kdf_of(label, out);
    println!(rt; "{name} {answer} {}", Hex(out))
}

// By the length of the area and the hash of what it holds.
fn kdf_hashed(rt: &impl Print, out: &mut [u8]) -> io::Result<()> {
    let answer = kdf_of(b"mk", out);
    println!(rt;
        "{}, its hash {answer} {}",
        out.len(),
        Hex(&sha384::hash(out))
    )
}

// The bytes of an area that takes three hashes.
const THREE_HASHES: usize = 100;

// The longest area and one of a byte more are told by their hashes.
fn kdfs(rt: &impl Print) -> io::Result<()> {
    println!(rt; "kdf.rs, kdf")?;
    for n in [0, 1, 16, 32, DIGEST, DIGEST + 1, THREE_HASHES] {
        let mut out = [BEFORE; THREE_HASHES];
        kdf_sized(rt, n, b"mk", first_mut(&mut out, n))?;
    }
    kdf_hashed(rt, &mut [BEFORE; LONGEST])?;
    kdf_hashed(rt, &mut [BEFORE; LONGEST + 1])
}

// A label, by value and into areas. Where label and area are both too long, the answer is that the label is.
fn with_label(rt: &impl Print, label: &[u8]) -> io::Result<()> {
    let key = rising::<32>(3, 7);
    print!(rt; "{} ", label.len())?;
    value_line(rt, "before the label", kdf::labelled(label))?;
    value_line(rt, "mac", kdf::mac(&key, label, b""))?;
    value_line(rt, "kdf", kdf::kdf_16(&key, b"", label, b""))?;
    digest_line(rt, label)?;
    tag_sized(rt, "tag", label, &mut [BEFORE; DIGEST])?;
    tag_sized(rt, "tag of 49", label, &mut [BEFORE; DIGEST + 1])?;
    kdf_sized(rt, "kdf of 100", label, &mut [BEFORE; THREE_HASHES])
}

fn longest_labels(rt: &impl Print) -> io::Result<()> {
    println!(rt; "kdf.rs, lengths of labels")?;
    with_label(rt, &[b'a'; LONGEST_LABEL])?;
    with_label(rt, &[b'a'; LONGEST_LABEL + 1])
}

// ---- data.rs

fn leb_line(rt: &impl Print, v: u32) -> io::Result<()> {
    let e = data::leb128(v);
    print_line(rt, v, first(&e.bytes, e.len))
}

fn lebs(rt: &impl Print) -> io::Result<()> {
    println!(rt; "data.rs, leb128")?;
    for v in [
        0,
        1,
        127,
        128,
        16_383,
        16_384,
        2_097_151,
        2_097_152,
        268_435_455,
        268_435_456,
        u32::MAX,
    ] {
        leb_line(rt, v)?;
    }
    Ok(())
}

fn main(rt: HostRuntime) -> io::Result<()> {
    let rt = Tried(rt);
    hashes(&rt)?;
    print_line(&rt, "a million a", &million())?;
    hash_lengths(&rt)?;
    hmacs(&rt)?;
    hmac_lengths(&rt)?;
    hkdfs(&rt)?;
    hkdf_lengths(&rt)?;
    labels(&rt)?;
    tags(&rt)?;
    kdfs(&rt)?;
    longest_labels(&rt)?;
    lebs(&rt)
}
