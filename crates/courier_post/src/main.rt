// Document 01's unmarked corners of couriering.rs, put to a small post, and a post that is saved and started again: a short line for each row
// or answer.
#![tactic(auto)]

use crate::post::Post;
use crate::step::{Step, run};
use std::io;
use text::Tried;

mod ended; // tombs and maintenance
mod expired; // rows that have expired
mod lines; // what is written
mod listed; // what lists and fetches are answered with
mod post; // the post, and the calls
mod restart; // a post that is started again
mod step; // what is put to a post
mod tags; // tags, secrets, headers, lists
mod time; // minute, lifetime end, what is accepted

// Each is put to a fresh post.
const SCENES: [&[Step]; 12] = [
    time::MINUTES,
    time::LAST_MINUTE,
    time::LIFETIME_END,
    time::ACCEPTED,
    listed::FETCHES,
    listed::TOMBSTONED_ROWS,
    listed::TOMBS,
    listed::OFFERS,
    listed::TOMBSTONED,
    expired::EXPIRED,
    ended::TOMBS,
    ended::MAINTENANCE,
];

fn main(rt: HostRuntime) -> io::Result<()> {
    let rt = Tried(rt);
    for steps in SCENES {
        run(&rt, &mut Post::default(), steps)?;
    }
    restart::restart(&rt)
}
