// Columns of a line of text, each written in place: a number to the right, blanks, and bytes in hexadecimal.
// (A String would need a heap, and the library has none. Digits are written by hand: `io::decimal` writes a number to the left, into an area of its own.)
#![tactic(auto)]

ghost use Rattle.std.specs.Prelude.{◌≡◌, ◌+◌, ◌*◌, ◌/◌, ◌%◌, ◌<◌, ◌≤◌, length};
ghost use Rattle.octets.specs.Bytes.{splice};
ghost use Rattle.columns.specs.Columns.{blanks, column, hex_digit, hexes};

#[tactic(auto, using(octets::proofs::Parts::lent_splice))]
pub fn put_blanks(out: &mut [u8], at: usize, n: usize)
    requires { at + n ≤ length out.old }
    ensures { out.new ≡ splice out.old at (blanks n) }
{
    out[at..at + n].fill(b' ');
}

// A number to the right of a column: its digits from the last on, then blanks.
#[tactic(auto, using(octets::proofs::Parts::splice_nil, crate::proofs::ColumnLaws::column_none, crate::proofs::ColumnLaws::column_last, crate::proofs::ColumnLaws::column_more))]
pub fn put_column(out: &mut [u8], at: usize, width: usize, n: u64)
    requires { at + width ≤ length out.old }
    ensures { out.new ≡ splice out.old at (column width n) }
{
    let mut v = n;
    for k in (0..width).rev() {
        out[at + k] = b'0' + (v % 10) as u8;
        if v < 10 {
            put_blanks(out, at, k);
            return;
        }
        v /= 10;
    }
}

// The digit of a number below 16: from `0` on, and from `a` on for 10 to 15.
fn digit(d: u8) -> u8
    requires { d < 16 }
    ensures { result ≡ hex_digit d }
{
    if d < 10 { b'0' + d } else { b'a' + (d - 10) }
}

// Two digits for each byte.
#[tactic(auto, using(octets::proofs::Parts::splice_nil, crate::proofs::ColumnLaws::hexes_none, crate::proofs::ColumnLaws::hexes_put))]
pub fn put_hex(out: &mut [u8], at: usize, bytes: &[u8])
    requires { at + 2 * length bytes.now ≤ length out.old }
    ensures { out.new ≡ splice out.old at (hexes bytes.now) }
{
    for (i, b) in bytes.iter().enumerate() {
        out[at + 2 * i] = digit(b / 16);
        out[at + 2 * i + 1] = digit(b % 16);
    }
}
