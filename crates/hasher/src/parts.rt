ghost use Rattle.std.specs.Prelude.{◌+◌, ◌^◌, ◌<◌, length};

// A text in three parts, one behind the other. The first two are short, so that the length of the whole has 64 bits.
#[derive(Clone, Copy)]
pub struct Parts<'a> {
    pub first: &'a [u8],
    pub second: &'a [u8],
    pub third: &'a [u8],
    ghost short: { length first.now + length second.now < 2 ^ 62 },
}
