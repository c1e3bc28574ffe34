// The functions of FIPS 180-4, 3.2 and 4.1.3, on words of 64 bits.
#![tactic(auto)]

ghost use Rattle.std.specs.Prelude.{◌≡◌, ◌<◌};
ghost use Rattle.sha_word.specs.Word.{ROTR, Ch, Maj, Σ0, Σ1, σ0, σ1};

// 3.2, 4: the bits of x moved right by n, and its n lowest bits put at the left.
#[tactic(auto, unfolding(crate::specs::Word::ROTR))]
pub fn rotr(x: u64, n: u64) -> u64
    requires { (0 < n) × (n < 64) }
    ensures { result ≡ ROTR n x }
{
    x.rotate_right(n as u32)
}

// (4.8): each bit of x chooses between that of y and that of z.
#[tactic(auto, unfolding(crate::specs::Word::Ch))]
pub fn ch(x: u64, y: u64, z: u64) -> u64
    ensures { result ≡ Ch x y z }
{
    (x & y) ^ (!x & z)
}

// (4.9): the bit that two or three of x, y and z have.
#[tactic(auto, unfolding(crate::specs::Word::Maj))]
pub fn maj(x: u64, y: u64, z: u64) -> u64
    ensures { result ≡ Maj x y z }
{
    (x & y) ^ (x & z) ^ (y & z)
}

// (4.10) to (4.13) are four functions of one line, each with the name and the numbers that it has in the standard. The last term turns in
// two of them and shifts in the others: two functions over three numbers would take the four names away, and be no shorter.

// (4.10)
pub fn big_sigma0(x: u64) -> u64
    ensures { result ≡ Σ0 x }
{
    rotr(x, 28) ^ rotr(x, 34) ^ rotr(x, 39)
}

// (4.11)
pub fn big_sigma1(x: u64) -> u64
    ensures { result ≡ Σ1 x }
{
    rotr(x, 14) ^ rotr(x, 18) ^ rotr(x, 41)
}

// (4.12)
pub fn small_sigma0(x: u64) -> u64
    ensures { result ≡ σ0 x }
{
    rotr(x, 1) ^ rotr(x, 8) ^ (x >> 7)
}

// (4.13)
pub fn small_sigma1(x: u64) -> u64
    ensures { result ≡ σ1 x }
{
    rotr(x, 19) ^ rotr(x, 61) ^ (x >> 6)
}
