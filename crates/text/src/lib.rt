// Text in an area: runs, numbers in decimal, tags in hexadecimal. Each function puts its text at a place and answers the place behind it. Last, prints that cannot fail.
// (A String would need a heap, and the drill, which prints by these functions, has none. std's `InlineText<N>` needs none, but it is a text of its own: it goes by
// value through each append, which cuts what has no room, and it would be copied from there to its place among the other answers of the area. A struct of area and
// place would be lent to each, which then would say of two fields what it says of a result: area and place stay apart, as in octets.)
#![tactic(auto)]

ghost use Rattle.std.specs.Prelude.{◌++◌, ◌+◌, ◌≤◌, length, IsOk};
ghost use Rattle.columns.specs.Columns.{hexes};
ghost use Rattle.text.specs.Text.{decimal, spaced, Puts};

use std::fmt::Display;
use std::io::Result;

// A run of bytes.
pub fn put_run(out: &mut [u8], at: usize, run: &[u8]) -> usize
    requires { at + length run.now ≤ length out.old }
    ensures { Puts (length run.now) out.old at run.now result out.new }
{
    octets::copy_in(out, at, run);
    at + run.len()
}

// The most digits of a number of 64 bits.
const DIGITS: usize = 20;

pub fn put_decimal(out: &mut [u8], at: usize, n: u64) -> usize
    requires { at + 20 ≤ length out.old }
    ensures { Puts 20 out.old at (decimal n) result out.new }
{
    let mut text = [0u8; DIGITS];
    let k = io::decimal(n, &mut text);
    octets::copy_in(out, at, &text[..k]);
    at + k
}

// The 32 digits of a tag.
pub fn put_hex(out: &mut [u8], at: usize, tag: [u8; 16]) -> usize
    requires { at + 32 ≤ length out.old }
    ensures { Puts 32 out.old at (hexes tag) result out.new }
{
    columns::put_hex(out, at, &tag);
    at + 32
}

// A space and a number.
pub fn put_spaced(out: &mut [u8], at: usize, n: u64) -> usize
    requires { at + 21 ≤ length out.old }
    ensures { Puts 21 out.old at (spaced n) result out.new }
{
    let p = put_run(out, at, b" ");
    put_decimal(out, p, n)
}

// A word and a tag.
pub fn put_tagged(out: &mut [u8], at: usize, word: &[u8], tag: [u8; 16]) -> usize
    requires { at + (length word.now + 32) ≤ length out.old }
    ensures { Puts (length word.now + 32) out.old at (word.now ++ hexes tag) result out.new }
{
    let p = put_run(out, at, word);
    put_hex(out, p, tag)
}

// ---- prints that cannot fail

// Prints by P. What P cannot write is lost, and the program goes on and ends as if it had been written.
#[derive(Clone, Copy)]
pub struct Tried<P>(pub P);

impl<P: Print> Print for Tried<P> {
    fn print<D: Display + Drop>(&self, value: D) -> Result<()>
        ensures { IsOk result }
    {
        let _ = self.0.print(value);
        Ok(())
    }

    fn println<D: Display + Drop>(&self, value: D) -> Result<()>
        ensures { IsOk result }
    {
        let _ = self.0.println(value);
        Ok(())
    }

    fn write_all(&self, bytes: &[u8]) -> Result<()>
        ensures { IsOk result }
    {
        let _ = self.0.write_all(bytes);
        Ok(())
    }
}

impl<P: Eprint> Eprint for Tried<P> {
    fn eprint<D: Display + Drop>(&self, value: D) -> Result<()>
        ensures { IsOk result }
    {
        let _ = self.0.eprint(value);
        Ok(())
    }

    fn eprintln<D: Display + Drop>(&self, value: D) -> Result<()>
        ensures { IsOk result }
    {
        let _ = self.0.eprintln(value);
        Ok(())
    }
}
