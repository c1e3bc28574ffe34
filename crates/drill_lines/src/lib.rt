// The drill's lines: what is printed for the answer of a record.
// (Each function puts its text at a place of the output and answers the place behind it: a String would need a heap, which the drill does without.)
#![tactic(auto)]

ghost use Rattle.std.specs.Prelude.{◌≡◌, ℕ, List, ◌+◌, ◌*◌, ◌≤◌, length};
ghost use mathlib.Core.List.{flat_map};
ghost use Rattle.table.specs.Rows.{held};
ghost use Rattle.table.specs.Codec.{table_of};
ghost use Rattle.rows.specs.Rows.{reply_width, reply_codec, action_width, action_codec};
ghost use Rattle.text.specs.Text.{Puts};
ghost use Rattle.model.specs.State.{State};
ghost use Rattle.model.specs.Areas.{Areas};
ghost use Rattle.drill_lines.specs.Lines.{put_line, del_line, envelope_line, custody_line, tomb_line, reply_line, action_line, held_view, blob_length, last_line, record_lines, acted_by, replied_by, last_by};

use courier::Header;
use courier_core::Refusal;
use rows::{ACTION_WIDTH, Action, CARRIED_AREA, Device, REPLY_WIDTH, Reply, Row};
use table::Table;

// The rows that are held, of which a put line tells the length.
#[derive(Clone, Copy)]
pub struct HeldRows<'a> {
    pub device: Device,
    pub carried: &'a [u8; CARRIED_AREA],
    pub tombstones: &'a [u8],
    pub cells: &'a [u8],
}

// ---- one line

// No line has more bytes. (The clauses have the number itself, and do not follow an edit of this constant.)
pub const LINE: usize = 96;

// `put SLOT BLOBLENGTH`
// (Area and place stay two arguments, and their bound stands at each function: crate text says why.)
fn put_line(slot: u64, blob: usize, out: &mut [u8], at: usize) -> usize
    requires { at + 96 ≤ length out.old }
    ensures { Puts 96 out.old at (put_line slot blob) result out.new }
{
    let p = text::put_run(out, at, b"put");
    let p = text::put_spaced(out, p, slot);
    let p = text::put_spaced(out, p, blob as u64);
    text::put_run(out, p, b"\n")
}

// `del SLOT`
fn del_line(slot: u64, out: &mut [u8], at: usize) -> usize
    requires { at + 96 ≤ length out.old }
    ensures { Puts 96 out.old at (del_line slot) result out.new }
{
    let p = text::put_run(out, at, b"del");
    let p = text::put_spaced(out, p, slot);
    text::put_run(out, p, b"\n")
}

// `envelope TAG EXPIRY COPIES`
fn envelope_line(tag: [u8; 16], expiry: u32, copies: u8, out: &mut [u8], at: usize) -> usize
    requires { at + 96 ≤ length out.old }
    ensures { Puts 96 out.old at (envelope_line tag expiry copies) result out.new }
{
    let p = text::put_tagged(out, at, b"envelope ", tag);
    let p = text::put_spaced(out, p, expiry as u64);
    let p = text::put_spaced(out, p, copies as u64);
    text::put_run(out, p, b"\n")
}

// `custody TAG CODE`
fn custody_line(tag: [u8; 16], code: u8, out: &mut [u8], at: usize) -> usize
    requires { at + 96 ≤ length out.old }
    ensures { Puts 96 out.old at (custody_line tag code) result out.new }
{
    let p = text::put_tagged(out, at, b"custody ", tag);
    let p = text::put_spaced(out, p, code as u64);
    text::put_run(out, p, b"\n")
}

// `tomb TAG`
fn tomb_line(tag: [u8; 16], out: &mut [u8], at: usize) -> usize
    requires { at + 96 ≤ length out.old }
    ensures { Puts 96 out.old at (tomb_line tag) result out.new }
{
    let p = text::put_tagged(out, at, b"tomb ", tag);
    text::put_run(out, p, b"\n")
}

// ---- the line of a row that a call lists

impl<'a> HeldRows<'a> {
    // The length of the blob of the row in a slot, as the row blob call answers it; 0 where no row has the slot.
    fn blob_length(self, slot: u64) -> usize
        ensures { (a : Areas) → result ≡ blob_length (held_view self.entry a) slot }
    {
        let mut blob = [0u8; state::BLOB];
        let answer = saved::row_blob(
            self.device,
            slot,
            self.carried,
            self.tombstones,
            self.cells,
            &mut blob,
        );
        answer.unwrap_or(None).unwrap_or(0)
    }
}

// A row that a call lists. It has a line of text, empty for some kinds; the line may tell of the rows that are held.
trait Listed<const N: usize>: Row<N> {
    ghost line: { State → Self → List ℕ };

    fn put_text(self, kept: HeldRows, out: &mut [u8], at: usize) -> usize
        requires { at + 96 ≤ length out.old }
        ensures { (a : Areas) → Puts 96 out.old at (line (held_view kept.entry a) self) result out.new };
}

// A fetch has no line: it comes of a window, and there is none here.
// (Of an envelope's header the line tells tag, expiry and copies, each read where it stands. `courier::decode` would read all of it, into an Option
// that the proof has to show is some.)
impl Listed<REPLY_WIDTH> for Reply {
    ghost line = { λ s. reply_line };

    fn put_text(self, kept: HeldRows, out: &mut [u8], at: usize) -> usize {
        let tag = octets::get_array(&self.body, 0);
        match self.kind {
            Reply::ENVELOPE => {
                let expiry = octets::get_u32(&self.body, Header::EXPIRY);
                let copies = octets::get_u8(&self.body, Header::COPIES);
                envelope_line(tag, expiry, copies, out, at)
            }
            Reply::CUSTODY => custody_line(
                tag,
                octets::get_u8(&self.body, Reply::BEHIND_TAG),
                out,
                at,
            ),
            Reply::TOMB => tomb_line(tag, out, at),
            _ => at,
        }
    }
}

// An own put has no line: there are no own rows here.
impl Listed<ACTION_WIDTH> for Action {
    ghost line = { λ s. action_line (blob_length s) };

    fn put_text(self, kept: HeldRows, out: &mut [u8], at: usize) -> usize {
        let slot = self.number;
        match self.kind {
            Action::PUT => put_line(slot, kept.blob_length(slot), out, at),
            Action::DELETE => del_line(slot, out, at),
            _ => at,
        }
    }
}

// The lines of the rows that a call lists. Their count may be anything, and what has no room in its area is no row.
fn put_lines<const N: usize, R: Listed<N>>(
    listed: Table<N>,
    kept: HeldRows,
    out: &mut [u8],
    at: usize,
) -> usize
    requires { at + held (length listed.area.now) R.codec.width listed.count * 96 ≤ length out.old }
    ensures { (a : Areas) → Puts (held (length listed.entry.area.now) R.codec.width listed.entry.count * 96) out.old at
        (flat_map (R.line (held_view kept.entry a)) (table_of R.codec listed.entry.count listed.entry.area.now)) result out.new }
{
    let mut p = at;
    for i in 0..listed.len() {
        p = R::read(listed.area, i * N).put_text(kept, out, p);
    }
    p
}

// ---- the last line

// What a call says that is not refused: how many actions and replies stand in the areas that it was lent. A malformed inventory or tomb is answered so:
// it is no refusal, and has no number.
#[derive(Clone, Copy)]
pub enum Said {
    Listed { actions: usize, replies: usize },
    Malformed,
}

pub fn last_line(said: Result<Said, Refusal>, out: &mut [u8], at: usize) -> usize
    requires { at + 96 ≤ length out.old }
    ensures { Puts 96 out.old at (last_line (last_by said)) result out.new }
{
    match said {
        Ok(Said::Listed { .. }) => text::put_run(out, at, b"ok\n"),
        Ok(Said::Malformed) => text::put_run(out, at, b"malformed\n"),
        Err(why) => {
            let p = text::put_run(out, at, b"refused");
            let p = text::put_spaced(out, p, why.number() as u64);
            text::put_run(out, p, b"\n")
        }
    }
}

// ---- the lines of a record

// How many actions and replies a call lists.
fn counts(said: Result<Said, Refusal>) -> (usize, usize)
    ensures { result ≡ (acted_by said, replied_by said) }
{
    match said {
        Ok(Said::Listed { actions, replies }) => (actions, replies),
        Ok(Said::Malformed) | Err(_) => (0, 0),
    }
}

// Those of its actions, those of its replies, and a last one. The actions and replies stand at the front of the two areas.
pub fn record_lines(
    said: Result<Said, Refusal>,
    actions: &[u8],
    replies: &[u8],
    kept: HeldRows,
    out: &mut [u8],
    at: usize,
) -> usize
    requires { at + (held (length actions.now) action_width (acted_by said) * 96 + held (length replies.now) reply_width (replied_by said) * 96 + 96) ≤ length out.old }
    ensures { (a : Areas) → Puts (held (length actions.now) action_width (acted_by said) * 96 + held (length replies.now) reply_width (replied_by said) * 96 + 96) out.old at
        (record_lines (held_view kept.entry a)
        (table_of action_codec (acted_by said) actions.now) (table_of reply_codec (replied_by said) replies.now) (last_by said)) result out.new }
{
    let (acted, replied) = counts(said);
    let acted = Table {
        area: actions,
        count: acted,
    };
    let replied = Table {
        area: replies,
        count: replied,
    };
    let p = put_lines::<ACTION_WIDTH, Action>(acted, kept, out, at);
    let p = put_lines::<REPLY_WIDTH, Reply>(replied, kept, out, p);
    last_line(said, out, p)
}
