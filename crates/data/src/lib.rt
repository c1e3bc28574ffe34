// data.rs: of it only `leb128`, for 32 bits.
#![tactic(auto)]

ghost use Rattle.std.specs.Prelude.{◌≡◌};
ghost use Rattle.data.specs.Leb128.{leb128 as leb_of, encoded};

// The encoding is the first `len` bytes; the rest are zeros. Fixed memory: the libraries have no heap.
#[derive(Drop)]
pub struct Encoded {
    pub bytes: [u8; 5],
    pub len: usize,
}

// The minimal unsigned LEB128 encoding of `value`. The loop goes over what is left of the value: a `for` over the bytes would need a `break` and a value behind the loop.
#[tactic(auto, using(crate::proofs::Leb128Laws::encode_last))]
pub fn leb128(value: u32) -> Encoded
    ensures { result ≡ encoded (leb_of value) }
{
    let mut bytes = [0; 5];
    let mut v = value;
    let mut n = 0;
    while 128 <= v {
        bytes[n] = (v % 128 + 128) as u8;
        v /= 128;
        n += 1;
    }
    bytes[n] = v as u8;
    Encoded { bytes, len: n + 1 }
}
