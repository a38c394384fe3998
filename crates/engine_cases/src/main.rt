// Runs the stored schedules of `data/cases` (made by `tests/engine_cases.py`) over one shared memory and compares every answer, and all words after it, with what is stored.
// It prints a line for each call that does not agree; then how often each outcome and refusal was met, and how many schedules, calls and damaged memories agree.
#![tactic(auto)]

mod answers;
mod calling;
mod room;
mod schedule;
mod shared;
mod stored;
mod tally;

use files::next_word;
use shared::Shared;
use std::fs::File;
use std::{fs, io};
use tally::{Tally, Tried};

fn schedules(rt: &impl Print, file: &mut File, tally: &mut Tally) -> io::Result<()> {
    let mut shared = Shared::new();
    for number in 0..next_word(file) {
        schedule::schedule(rt, file, number, &mut shared, tally)?;
    }
    Ok(())
}

fn main(rt: HostRuntime) -> io::Result<()> {
    let mut file = fs::open(&rt, "cases")?;
    let mut tally = Tally::new();
    schedules(&rt, &mut file, &mut tally)?;
    tally.say_outcomes(&rt)?;
    tally.say_refusals(&rt)?;
    tally.say_agreed(&rt, Tried::Schedule, "schedules")?;
    tally.say_agreed(&rt, Tried::Call, "calls")?;
    tally.say_agreed(&rt, Tried::Damage, "damaged memories")
}
