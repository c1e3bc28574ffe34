// Makes the calls of a sample of the oracle's answers again, on a post of its own, and compares every answer with the sample's.
#![tactic(auto)]

ghost use Rattle.std.specs.Prelude.{◌<◌};
ghost use Rattle.std.specs.Iterator.{IsFinite};

use courier::Custody;
use host_answers::{DONE, MALFORMED, MISSING, NO_ENVELOPE, OURS};
use replay_calls::{Post, front};
use replay_compare::{Difference, compare};
use replay_log::{Entry, KINDS, LAST_REFUSAL, List, Record, Walk};
use rows::{Action, Reply, Row};
use std::fmt;
use std::io::Result;
use text::Tried;

const STDIN: i32 = 0;

// ---- what was reached, counted

// Where each begins in one run of counts: calls by the byte of their kind, replies by their kinds, custody codes, actions by their kinds, and what the calls
// said by its number. A byte above those that have names counts with what follows: a reply of kind 5 with the custody code 0.
const CALLS_AT: u8 = 0;

const REPLIES_AT: u8 = 40;

const CODES_AT: u8 = 45;

const ACTIONS_AT: u8 = 50;

const SAID_AT: u8 = 64;

// As many as a beginning and a byte name.
const COUNTS: usize = 511;

fn place(at: u8, byte: u8) -> usize
    ensures { result < 511 }
{
    usize::from(at) + usize::from(byte)
}

// How often each byte was there. (Not a map: no program of this repository has a heap.)
#[derive(Default, Drop)]
struct Tally([u64; COUNTS]);

impl Tally {
    fn add(&mut self, at: u8, byte: u8) {
        let i = place(at, byte);
        self.0[i] = self.0[i].saturating_add(1);
    }

    fn of(&self, at: u8, byte: u8) -> u64 {
        self.0[place(at, byte)]
    }

    fn count(&mut self, r: &Record) {
        self.add(CALLS_AT, r.kind.byte());
        self.add(SAID_AT, r.said());
        for row in r.replies {
            let reply = Reply::read(row, 0);
            self.add(REPLIES_AT, reply.kind);
            if reply.kind == Reply::CUSTODY {
                self.add(CODES_AT, reply.body[Reply::BEHIND_TAG]);
            }
        }
        for row in r.actions {
            self.add(ACTIONS_AT, Action::read(row, 0).kind);
        }
    }
}

// ---- the post, call by call

// Where the program stands: the list, how many calls of it were made and are left, and how many of them and of all calls differ.
#[derive(Clone, Copy, Default)]
struct State {
    list: usize,
    calls: usize,
    left: usize,
    differ: usize,
    all: usize,
}

impl State {
    fn begin(&mut self, list: List) {
        self.list = self.list.saturating_add(1);
        self.calls = 0;
        self.left = list.calls;
        self.differ = 0;
    }

    // A call was made, which differs or not.
    fn called(&mut self, differs: bool) {
        self.calls = self.calls.saturating_add(1);
        self.left = self.left.saturating_sub(1);
        self.differ = self.differ.saturating_add(usize::from(differs));
        self.all = self.all.saturating_add(usize::from(differs));
    }
}

// `list 3, call 17, fetch: reply 0 differs`. Calls are counted from 1, replies and actions from 0.
fn report(rt: &impl Eprint, s: &State, r: &Record, what: Difference) -> Result<()> {
    let call = s.calls.saturating_add(1);
    eprintln!(rt; "list {}, call {call}, {}: {what} differs", s.list, r.kind)
}

// Makes the call of a record; what differs in it is said on standard error. Behind a list's last call comes `list 3: 300 calls, 0 differ`.
fn make_call(rt: &(impl Print + Eprint), s: &mut State, p: &mut Post, r: &Record) -> Result<()> {
    let answer = replay_rows::perform(p, r);
    match compare(&answer, p, r) {
        Ok(()) => s.called(false),
        Err(what) => {
            report(rt, s, r, what)?;
            s.called(true);
        }
    }
    if s.left > 0 {
        return Ok(());
    }
    println!(rt; "list {}: {} calls, {} differ", s.list, s.calls, s.differ)
}

// Makes all calls of a sample of right shape, and says how many differ.
fn replay(rt: &(impl Print + Eprint), sample: &[u8], tally: &mut Tally) -> Result<usize> {
    let mut post = Post::default();
    let mut s = State::default();
    for (_, entry) in replay_log::entries_of(sample) {
        match entry {
            Entry::List(list) => {
                s.begin(list);
                post.begin(list);
            }
            Entry::Call(r) => {
                tally.count(&r);
                make_call(rt, &mut s, &mut post, &r)?;
            }
            Entry::End { .. } => {}
        }
    }
    Ok(s.all)
}

// ---- the totals

// One line: each name, and its count. (A flag for the first: `enumerate` asks that the counts are fewer than 2^64, which this function would ask of its
// callers in turn; and a text kept for what stands before a name asks for an invariant that it is text.)
fn line<N: fmt::Display + Drop, I: Iterator<Item = (u64, N)>>(
    rt: &impl Print,
    title: &str,
    counts: I,
) -> Result<()>
    requires { I.can_next counts × IsFinite (I.remaining counts) }
{
    print!(rt; "{title}:")?;
    let mut first = true;
    for (count, name) in counts {
        let comma = if first { "" } else { "," };
        print!(rt; "{comma} {name} {count}")?;
        first = false;
    }
    println!(rt)
}

// A refusal, as its line names it.
#[derive(Drop)]
struct Refused(u8);

impl fmt::Display for Refused {
    fn fmt<W: fmt::Write>(&self, f: &mut fmt::Formatter<W>) -> fmt::Result {
        write!(f, "number {}", self.0)
    }
}

// (A name beside each number or code, here and below: a `Display` would need a type of one field for each table, with a match as long as the table.)
const SAID: [(u8, &str); 5] = [
    (DONE, "done"),
    (MALFORMED, "malformed"),
    (OURS, "ours"),
    (MISSING, "missing"),
    (NO_ENVELOPE, "no envelope"),
];

const REPLIES: [(u8, &str); 4] = [
    (Reply::FETCH, "fetch"),
    (Reply::ENVELOPE, "envelope"),
    (Reply::CUSTODY, "custody"),
    (Reply::TOMB, "tomb"),
];

const CODES: [(Custody, &str); 5] = [
    (Custody::Accepted, "accepted"),
    (Custody::Full, "full"),
    (Custody::Duplicate, "duplicate"),
    (Custody::Off, "off"),
    (Custody::Invalid, "invalid"),
];

const ACTIONS: [(u8, &str); 3] = [
    (Action::PUT, "put"),
    (Action::DELETE, "delete"),
    (Action::PUT_QUEUED, "own put"),
];

// One line of bytes that have names.
fn named_line(
    rt: &impl Print,
    title: &str,
    tally: &Tally,
    at: u8,
    names: &[(u8, &'static str)],
) -> Result<()> {
    let named = names
        .iter()
        .map(|(byte, name)| (tally.of(at, *byte), *name));
    line(rt, title, named)
}

fn totals(rt: &impl Print, w: Walk, differ: usize, tally: &Tally) -> Result<()> {
    let calls = KINDS
        .iter()
        .map(|kind| (tally.of(CALLS_AT, kind.byte()), *kind));
    line(rt, "calls", calls)?;
    let refused = (1..=LAST_REFUSAL).map(|n| (tally.of(SAID_AT, n), Refused(n)));
    line(rt, "refused", refused)?;
    named_line(rt, "said", tally, SAID_AT, &SAID)?;
    named_line(rt, "replies", tally, REPLIES_AT, &REPLIES)?;
    let codes = CODES.iter().map(|(custody, name)| (tally.of(CODES_AT, custody.code()), *name));
    line(rt, "custody", codes)?;
    named_line(rt, "actions", tally, ACTIONS_AT, &ACTIONS)?;
    println!(rt; "{} lists, {} calls, {differ} differ", w.lists, w.calls)
}

// ---- the program

// The whole shape is tested before the first call, so that nothing is printed of a sample that ends too soon.
fn run(rt: &(impl Print + Eprint), sample: &[u8]) -> Result<()> {
    match replay_log::walked(sample) {
        Ok(w) => {
            let mut tally = Tally::default();
            let differ = replay(rt, sample, &mut tally)?;
            totals(rt, w, differ, &tally)
        }
        Err(at) => eprintln!(rt; "the sample is of wrong shape at byte {at}"),
    }
}

// The longest sample that is read, and a byte.
const INPUT: usize = 1_048_576;

// (The input is given on as an array of its size: sliced where it is made, the check goes through a million zeros.)
fn fill(input: &mut [u8; INPUT]) -> usize {
    io::read_full(STDIN, input)
}

fn run_first(rt: &(impl Print + Eprint), input: &[u8; INPUT], n: usize) -> Result<()> {
    run(rt, front(input, n))
}

fn main(rt: HostRuntime) -> Result<()> {
    let rt = Tried(rt);
    let mut input = [0u8; INPUT];
    let n = fill(&mut input);
    if n < INPUT {
        run_first(&rt, &input, n)
    } else {
        eprintln!(rt; "the sample is too long")
    }
}
