// Reads a log from standard input, and writes its lines to standard output. What it keeps, hands on and puts at the end is `drill_turn`'s.
#![tactic(auto)]

ghost use Rattle.std.specs.Prelude.{◌≡◌, ◌<◌, length, replicate};
ghost use Rattle.drill_run.specs.Drill.{drill_start};
ghost use Rattle.drill_turn.specs.Stream.{Inside, Waits, Stops};
ghost use Rattle.drill.specs.Reads.{count_of, Reads, Filled};
ghost use Rattle.drill.specs.Written.{Takes, Writes, told_of, usage, ran_of, Halts, Finishes, SentAll};

use drill_calls::Tables;
use drill_log::{OUTPUT, Why};
use drill_turn::{INPUT, Turn};
use std::env::{Env, FillError};
use std::fmt::InlineText;
use std::io;
use std::io::{Eprint, ErrorKind, IsTerminal, Print, Read, Stderr, Stdin, Stdout};

// ---- what failed

// The system's words for an error. `io::Error` puts the number behind them.
fn words(text: &str) -> &str {
    match text.split_once(" (os error ") {
        Some((words, _)) => words,
        None => text,
    }
}

// Says on standard error what failed, as the caller names it, and why.
fn fail(stderr: Stderr, what: &str, error: io::Error) {
    let text = InlineText::<128>::of(error);
    let why = words(text.as_str());
    let _ = eprintln!(stderr; "{what}: {why}");
}

// ---- reading

// Reads once behind the first bytes. A read of no bytes is the end of the input, so that there must be room.
fn read_behind(mut stdin: Stdin, input: &mut [u8], at: usize) -> io::Result<usize>
    requires { at < length input.old }
    ensures { Reads input.old at (count_of result) input.new }
{
    stdin.read(&mut input[at..])
}

// Reads once, if more input is wanted; if the read fails, standard error says so. There is room: what is kept is less than the longest record, which has 8,196 bytes.
fn fill(stdin: Stdin, stderr: Stderr, turn: Turn, input: &mut [u8; INPUT]) -> Turn
    requires { Waits turn input.old }
    ensures { Filled turn input.old result input.new }
{
    if turn.why != Why::More {
        return turn;
    }
    let kept = drill_turn::keep(turn, input);
    match read_behind(stdin, input, kept.have) {
        Ok(n) => drill_turn::grow(kept, Some(n)),
        Err(e) => {
            fail(stderr, "standard input", e);
            drill_turn::grow(kept, None)
        }
    }
}

// ---- writing

// What write took: so many of the bytes that it was handed, and so many in all, modulo 2^64; and the error of a write that failed. (The
// counts hold beside an error too: they say what was sent before it.)
#[derive(Drop)]
struct Took {
    n: usize,
    total: u64,
    error: Option<io::Error>,
}

// Hands the bytes to write once. All that the program writes goes through here, but for what `fail` says.
fn write_once(to: &impl Print, bytes: &[u8], total: u64) -> Took
    ensures { Takes total bytes.now result.n result.total }
{
    let (n, error) = match to.write_some(bytes) {
        Ok(n) => (n, None),
        Err(e) => (0, Some(e)),
    };
    Took {
        n,
        total: drill_turn::further(total, n),
        error,
    }
}

// Writes the bytes in order, and stops at a write that takes none. (A loop over writes: `write_all` does not say how many bytes went before
// an error.)
fn write_front(to: &impl Print, bytes: &[u8], total: u64) -> Took
    ensures { Takes total bytes.now result.n result.total }
{
    let mut done = 0;
    let mut sum = total;
    while done < bytes.len() {
        let took = write_once(to, &bytes[done..], sum);
        if took.n == 0 {
            return Took {
                n: done,
                total: sum,
                error: took.error,
            };
        }
        done += took.n;
        sum = took.total;
    }
    Took {
        n: done,
        total: sum,
        error: None,
    }
}

// So many bytes in all, and whether those that were asked are among them. (The total counts where they are not, too.)
#[derive(Drop)]
struct Wrote {
    total: u64,
    whole: bool,
}

// Writes lines to standard output, or says that it could not.
fn emit(stdout: Stdout, stderr: Stderr, lines: &[u8], total: u64) -> Wrote
    ensures { Writes total lines.now result }
{
    let took = write_front(&stdout, lines, total);
    let whole = took.n >= lines.len();
    if !whole {
        fail(
            stderr,
            "standard output",
            took.error.unwrap_or(io::Error::from(ErrorKind::WriteZero)),
        );
    }
    Wrote {
        total: took.total,
        whole,
    }
}

// Where a refused log record stands, and why: the lines do not say it, so standard error does. The first record has number 1, and the log's first byte
// is byte 0.
fn tell(stderr: Stderr, turn: Turn, input: &[u8; INPUT]) -> Took
    requires { Inside turn.from turn.have }
    ensures { Takes 0 (told_of turn input.now) result.n result.total }
{
    let mut message = [0u8; drill_reason::LONGEST_MESSAGE];
    let number = drill_turn::further(turn.records, 1);
    let byte = drill_turn::further(turn.bytes, turn.from);
    let n = drill_reason::message_at(&input[turn.from..turn.have], number, byte, &mut message);
    write_front(&stderr, &message[..n], 0)
}

// ---- the run

// Why a run ended, or none where the output could not be written; how many bytes of the log it read, and how many bytes of lines write took, both modulo 2^64.
#[derive(Drop)]
struct Ran {
    why: Option<Why>,
    read: u64,
    wrote: u64,
}

fn ended(turn: Turn, wrote: u64, why: Option<Why>) -> Ran
    ensures { result ≡ ran_of turn wrote why }
{
    Ran {
        why,
        read: drill_turn::further(turn.bytes, turn.have),
        wrote,
    }
}

// After a turn behind which there is none: a refused log record, or lines that could not be written.
fn stop(stderr: Stderr, turn: Turn, input: &[u8; INPUT], wrote: Wrote) -> Ran
    requires { Inside turn.from turn.have }
    ensures { Halts turn wrote result }
{
    if wrote.whole && turn.why == Why::Refused {
        tell(stderr, turn, input);
        return ended(turn, wrote.total, Some(Why::Refused));
    }
    ended(turn, wrote.total, None)
}

// The end of the input, or a read that failed.
fn finish(
    stdout: Stdout,
    stderr: Stderr,
    turn: Turn,
    input: &[u8; INPUT],
    out: &mut [u8; OUTPUT],
    total: u64,
) -> Ran
    requires { Stops turn input.now }
    ensures { Finishes turn total result }
{
    if turn.why != Why::Ended {
        return ended(turn, total, Some(Why::Failed));
    }
    let n = drill_turn::at_end(turn, out);
    let wrote = emit(stdout, stderr, &out[..n], total);
    if wrote.whole {
        if n > 0 {
            tell(stderr, turn, input);
        }
        return ended(turn, wrote.total, Some(Why::Ended));
    }
    ended(turn, wrote.total, None)
}

// Nothing says that the input ends, so the turns are counted, to a number that no run reaches.
fn run(stdin: Stdin, stdout: Stdout, stderr: Stderr) -> Ran
    ensures { SentAll (drill_start (replicate 33024 0) (replicate 33024 0)) result }
{
    let mut input = [0u8; INPUT];
    let mut out = [0u8; OUTPUT];
    let mut tables = Tables::zeros();
    let mut turn = drill_turn::start();
    let mut total = 0;
    for _ in 0..u64::MAX {
        let filled = fill(stdin, stderr, turn, &mut input);
        if matches!(filled.why, Why::Ended | Why::Failed) {
            return finish(stdout, stderr, filled, &input, &mut out, total);
        }
        let next = drill_turn::advance(filled, &input, &mut tables, &mut out);
        let wrote = emit(stdout, stderr, &out[..next.put], total);
        if next.why.goes_on() && wrote.whole {
            turn = next;
            total = wrote.total;
            continue;
        }
        return stop(stderr, next, &input, wrote);
    }
    ended(turn, total, Some(turn.why))
}

// ---- how it is used

// Writes all of a text to standard error.
fn say(stderr: Stderr, text: &[u8]) -> Took
    ensures { Takes 0 text.now result.n result.total }
{
    write_front(&stderr, text, 0)
}

fn say_use(stderr: Stderr) -> Took
    ensures { Takes 0 usage result.n result.total }
{
    say(
        stderr,
        b"usage: drill < LOG\nIt reads a log from standard input and prints a line for each action and reply, and one for each record.\nsamples/README.md tells the format; tools/drill-log makes a log from text.\n",
    )
}

// Does the program take a word behind its name?
fn has_word(env: &impl Env) -> bool {
    !matches!(env.arg(1, &mut [0u8; 1]), Err(FillError::NotPresent))
}

// A log is not typed on a terminal, and the program takes no word.
fn main(rt: HostRuntime) {
    if has_word(&rt) || rt.stdin().is_terminal() {
        say_use(rt.stderr());
        return;
    }
    run(rt.stdin(), rt.stdout(), rt.stderr());
}
