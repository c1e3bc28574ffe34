// Why a log record is refused (`Refusal::LogRecord`), told from the bytes at whose front it stands, and the message that says it.
#![tactic(auto)]

ghost use Rattle.std.specs.Prelude.{◌≡◌, ◌≤◌, length};
ghost use Rattle.text.specs.Text.{Puts};
ghost use Rattle.wire.specs.Log.{mark_at, size_at, body_of};
ghost use Rattle.drill_reason.specs.Reason.{field_of, head_reason, body_reason, reason_of};
ghost use Rattle.drill_reason.specs.Message.{words_of, place_of, message_of, longest_place, longest_message};

use wire::Mark;

// The reasons for it, in document 01's order.
#[derive(Clone, Copy, PartialEq, Eq)]
pub enum Reason {
    Mark,
    Length,
    Shape,
    Code,
    Verification,
    Enabled,
    Contacts,
    End,
}

// Why a wrong head is refused.
#[tactic(auto, unfolding(crate::specs::Reason::head_reason))]
fn head_reason(s: &[u8]) -> Reason
    requires { 4 ≤ length s.now }
    ensures { result ≡ head_reason (mark_at s.now) (size_at s.now) }
{
    if wire::mark_at(s) == Mark::Unknown {
        return Reason::Mark;
    }
    if wire::size_at(s) <= wire::BODY_MAX {
        return Reason::Shape;
    }
    Reason::Length
}

// The field that may be wrong in a body of its mark's shape.
fn field_of(mark: Mark) -> Reason
    ensures { result ≡ field_of mark }
{
    match mark {
        Mark::Contact => Reason::Verification,
        Mark::Custody => Reason::Code,
        Mark::Setting => Reason::Enabled,
        Mark::Unknown => Reason::Mark,
        _ => Reason::Shape,
    }
}

// A record whose head is right and whose body is there.
fn body_reason(mark: Mark, body: &[u8]) -> Reason
    ensures { result ≡ body_reason mark (body_of mark body.now) }
{
    match wire::read_body(mark, body) {
        Some(_) => Reason::Contacts,
        None => field_of(mark),
    }
}

#[tactic(auto, unfolding(crate::specs::Reason::reason_of, octets::specs::Bytes::part))]
fn reason_of(s: &[u8]) -> Reason
    ensures { result ≡ reason_of s.now }
{
    if s.len() < wire::HEAD {
        return Reason::End;
    }
    match wire::read_head(s) {
        Ok(Some(head)) => body_reason(head.mark, &s[wire::HEAD..wire::HEAD + head.len]),
        Ok(None) => Reason::End,
        Err(_) => head_reason(s),
    }
}

// ---- the message
// (No `Display`: the contract says which bytes stand in `out`, and text's functions say it.)

// The most bytes that a message has.
pub const LONGEST_MESSAGE: usize = 93;

impl Reason {
    fn words(self) -> &'static [u8]
        ensures { result.now ≡ words_of self }
    {
        match self {
            Reason::Mark => b"unknown mark\n",
            Reason::Length => b"body over 8192 bytes\n",
            Reason::Shape => b"body of wrong shape\n",
            Reason::Code => b"code above 4\n",
            Reason::Verification => b"verification above 2\n",
            Reason::Enabled => b"enabled above 1\n",
            Reason::Contacts => b"a 257th contact\n",
            Reason::End => b"end of input inside it\n",
        }
    }
}

// Which record, from 1, and the byte at which it begins, from 0.
fn put_place(out: &mut [u8], number: u64, byte: u64) -> usize
    requires { longest_place ≤ length out.old }
    ensures { Puts longest_place out.old 0 (place_of number byte) result out.new }
{
    let p = text::put_run(out, 0, b"record ");
    let p = text::put_decimal(out, p, number);
    let p = text::put_run(out, p, b" at byte ");
    text::put_decimal(out, p, byte)
}

// Of the record at the front of some bytes, after which the input may have more: the message stands at the front of `out`.
pub fn message_at(bytes: &[u8], number: u64, byte: u64, out: &mut [u8]) -> usize
    requires { longest_message ≤ length out.old }
    ensures { Puts longest_message out.old 0 (message_of number byte (reason_of bytes.now)) result out.new }
{
    let reason = reason_of(bytes);
    let p = put_place(out, number, byte);
    let p = text::put_run(out, p, b": refused 13: ");
    text::put_run(out, p, reason.words())
}
