// The drill's log, read in pieces: what a turn keeps of its input, what it hands on, and the line at the end of the input.
#![tactic(auto)]

ghost use Rattle.std.specs.Prelude.{◌≡◌, ◌+◌, ◌%◌, ◌^◌, ◌≤◌};
ghost use Rattle.std.specs.Option.{unwrap_or};
ghost use Rattle.drill_calls.specs.Asking.{tables_areas};
ghost use Rattle.drill_turn.specs.Stream.{Inside, first_turn, after_read, read_turn, Keeps, Turned, AtEnd};

use courier_core::Refusal;
use drill_calls::Tables;
use drill_log::{OUTPUT, Why};
use rows::{Device, Exchange};

// The bytes of the area that the input is read to.
pub const INPUT: usize = 65_536;

// What one turn hands on to the next: input[from..have] is not done, and out[..put] are its lines. So many bytes of the log stand before
// input[0], and so many records before input[from], both modulo 2^64. The count of records is told on standard error; no contract says that `advance` counts the records performed.
// (Input and output are arrays, and these numbers say how much of them counts: a Vec would need a heap, and the drill, as the library, has none.)
// (No ghost field says `Inside`: the definitions that make a turn of its fields, as `first_turn` and `with_input`, would each have to hold a proof of it.)
#[derive(Clone, Copy)]
pub struct Turn {
    pub device: Device,
    pub exchange: Exchange,
    pub from: usize,
    pub have: usize,
    pub put: usize,
    pub why: Why,
    pub records: u64,
    pub bytes: u64,
}

pub fn further(total: u64, more: usize) -> u64
    ensures { result ≡ (total + more) % 2 ^ 64 }
{
    total.wrapping_add(more as u64)
}

// Before anything is read.
pub fn start() -> Turn
    ensures { result ≡ first_turn }
{
    Turn {
        device: Device::fresh(),
        exchange: Exchange::closed(),
        from: 0,
        have: 0,
        put: 0,
        why: Why::More,
        records: 0,
        bytes: 0,
    }
}

// ---- the input

// Keeps what is not done, at the front of the buffer, so that there is room behind it. What stands there already is not moved: a record that comes in many
// pieces would cost the square of its length.
pub fn keep(turn: Turn, input: &mut [u8; INPUT]) -> Turn
    requires { Inside turn.from turn.have }
    ensures { Keeps turn input.old result input.new }
{
    if turn.from > 0 {
        input.copy_within(turn.from..turn.have, 0);
    }
    Turn {
        from: 0,
        have: turn.have - turn.from,
        put: 0,
        why: Why::More,
        bytes: further(turn.bytes, turn.from),
        ..turn
    }
}

// Why a turn goes on or ends after a read: of so many bytes, or one that failed.
fn after_read(got: Option<usize>) -> Why
    ensures { result ≡ after_read got }
{
    match got {
        Some(0) => Why::Ended,
        Some(_) => Why::More,
        None => Why::Failed,
    }
}

// After a read behind the bytes that are kept: so many came, or it failed.
pub fn grow(turn: Turn, got: Option<usize>) -> Turn
    requires { turn.have + unwrap_or got 0 ≤ 65536 }
    ensures { result ≡ read_turn turn got }
{
    Turn {
        have: turn.have + got.unwrap_or(0),
        put: 0,
        why: after_read(got),
        ..turn
    }
}

// ---- the records

// Performs the records that are there, on the turn's own device and exchange, and hands on those that come back.
pub fn advance(turn: Turn, input: &[u8; INPUT], tables: &mut Tables, out: &mut [u8; OUTPUT]) -> Turn
    requires { Inside turn.from turn.have }
    ensures { Turned
        (tables_areas turn.device turn.exchange tables.old)
        (tables_areas result.device result.exchange tables.new)
        turn input.now result out.new }
{
    let mut device = turn.device;
    let mut exchange = turn.exchange;
    let p = drill_log::run_some(
        &input[turn.from..turn.have],
        &mut device,
        &mut exchange,
        tables,
        out,
    );
    Turn {
        device,
        exchange,
        from: turn.from + p.used,
        put: p.put,
        why: p.why,
        records: further(turn.records, p.count),
        ..turn
    }
}

// ---- the end of the input

// Puts the line of an input that ends inside a record, which is refused; none where it ends between two.
pub fn at_end(turn: Turn, out: &mut [u8; OUTPUT]) -> usize
    ensures { AtEnd turn result out.new }
{
    if turn.have <= turn.from {
        return 0;
    }
    drill_lines::last_line(Err(Refusal::LogRecord), out, 0)
}
