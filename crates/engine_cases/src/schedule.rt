// A stored schedule: image and query, each with a spare word at its end, then its calls.
use crate::shared::Shared;
use crate::stored::Slice;
use crate::tally::{Tally, Tried};
use files::next_word;
use std::fs::File;
use std::io;

// A call on the memory as it is, or with one word changed.
fn turn_agrees(shared: &mut Shared, file: &mut File, tally: &mut Tally) -> bool {
    let Some(slice) = Slice::changed(next_word(file)) else {
        let good = shared.call_agrees(file, tally);
        tally.count_agreed(Tried::Call, good);
        return good;
    };
    let good = shared.changed_agrees(file, slice, tally);
    tally.count_agreed(Tried::Call, good);
    if !matches!(slice, Slice::Image | Slice::Query) {
        tally.count_agreed(Tried::Damage, good);
    }
    good
}

// The memory is what the schedule before has left.
pub fn schedule(
    rt: &impl Print,
    file: &mut File,
    number: u32,
    shared: &mut Shared,
    tally: &mut Tally,
) -> io::Result<()> {
    shared.read_rules(file);
    let calls = next_word(file);
    let mut all = true;
    for turn in 0..calls {
        if !turn_agrees(shared, file, tally) {
            all = false;
            let left = calls - turn;
            println!(rt; "differs: schedule {number}, calls left {left}")?;
        }
    }
    tally.count_agreed(Tried::Schedule, all);
    Ok(())
}
