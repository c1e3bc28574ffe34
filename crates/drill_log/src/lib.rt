// The drill: a log's records performed, one by one.
#![tactic(auto)]

ghost use Rattle.std.specs.Prelude.{◌≡◌, ◌+◌, ◌≤◌};
ghost use Rattle.wire.specs.Log.{body_of};
ghost use Rattle.drill_lines.specs.Lines.{stops_at, last_by};
ghost use Rattle.drill_calls.specs.Asking.{tables_areas};
ghost use Rattle.drill_log.specs.Run.{goes_on, Performing, Runs};

use courier_core::Refusal;
use drill_calls::{ACTION_ROWS, Tables};
use drill_lines::{HeldRows, LINE, Said};
use rows::{Device, Exchange, LISTED_REPLIES};
use wire::Mark;

// The bytes of the area for lines. (`perform`'s clause has this number and that of a record's lines themselves, and does not follow an edit of the constants.)
pub const OUTPUT: usize = 655_360;

// The lines of a record have no more bytes: one line for each action and reply that the answer areas hold, and a last one.
const RECORD_LINES: usize = (ACTION_ROWS + LISTED_REPLIES + 1) * LINE;

// The last place at which the lines of one more record begin.
const ROOM_FROM: usize = OUTPUT - RECORD_LINES;

// After a record: where the next line goes, and whether the log ends here, at a refused log record. (Both count: a record that ends the log has lines.)
#[derive(Clone, Copy)]
pub struct Done {
    pub put: usize,
    pub stop: bool,
}

#[tactic(auto, using(crate::proofs::PerformLaws::not_last))]
fn stops(said: Result<Said, Refusal>) -> bool
    ensures { result ≡ stops_at (last_by said) }
{
    matches!(said, Err(Refusal::LogRecord))
}

// The call of a record, and its lines from a place on. (The device and the exchange are apart from the tables: a turn hands on those two by value, and
// the tables are too large for that.) The area has room for the lines of every action and reply that the answer areas hold.
fn perform(
    mark: Mark,
    body: &[u8],
    device: &mut Device,
    exchange: &mut Exchange,
    tables: &mut Tables,
    out: &mut [u8; OUTPUT],
    at: usize,
) -> Done
    requires { at + 295008 ≤ 655360 }
    ensures { Performing (body_of mark body.now)
        (tables_areas device.old exchange.old tables.old)
        (tables_areas device.new exchange.new tables.new)
        out.old at result.put out.new result.stop }
{
    let said = drill_calls::ask(mark, body, device, exchange, tables);
    let held = HeldRows {
        device: *device,
        carried: &tables.carried,
        tombstones: &tables.tombstones,
        cells: &tables.cells,
    };
    let put = drill_lines::record_lines(said, &tables.actions, &tables.replies, held, out, at);
    Done {
        put,
        stop: stops(said),
    }
}

// ---- the records of a buffer

// Why a run or a turn ended: each is named, and none holds a value. A run over a buffer gives the first three.
#[derive(Clone, Copy, PartialEq, Eq)]
pub enum Why {
    More, // more input is wanted
    Full, // the lines of one more record have no room
    Refused, // the record at the place where it stopped is refused as a log record
    Ended, // the input has ended
    Failed, // the input could not be read
}

impl Why {
    // Does the drill go on, after more input or with room for lines again?
    pub fn goes_on(self) -> bool
        ensures { result ≡ goes_on self }
    {
        matches!(self, Why::More | Why::Full)
    }
}

// What the run over a buffer answers: how far it read and wrote, how many records stand before that place, and why it stopped.
#[derive(Clone, Copy)]
pub struct Progress {
    pub used: usize,
    pub put: usize,
    pub count: usize,
    pub why: Why,
}

// Performs each whole record at the front of the input, as long as the lines of one more have room, and puts their lines at the front of out.
// (A `while`: how many records there are, and how many have room, shows only as they are read and performed.)
pub fn run_some(
    input: &[u8],
    device: &mut Device,
    exchange: &mut Exchange,
    tables: &mut Tables,
    out: &mut [u8; OUTPUT],
) -> Progress
    ensures { Runs
        (tables_areas device.old exchange.old tables.old)
        (tables_areas device.new exchange.new tables.new)
        input.now result.used out.new result.put result.why }
{
    let mut ran = Progress {
        used: 0,
        put: 0,
        count: 0,
        why: Why::Full,
    };
    while ran.put <= ROOM_FROM {
        let rest = &input[ran.used..];
        match wire::read_head(rest) {
            Ok(Some(head)) => {
                let end = wire::HEAD + head.len;
                let body = &rest[wire::HEAD..end];
                let done = perform(head.mark, body, device, exchange, tables, out, ran.put);
                ran.put = done.put;
                if done.stop {
                    ran.why = Why::Refused;
                    return ran;
                }
                ran.used += end;
                ran.count += 1;
            }
            Ok(None) => {
                ran.why = Why::More;
                return ran;
            }
            Err(why) => {
                ran.put = drill_lines::last_line(Err(why), out, ran.put);
                ran.why = Why::Refused;
                return ran;
            }
        }
    }
    ran
}
