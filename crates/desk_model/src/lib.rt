// The answers that the definitions of the desk program in `specs/` speak of.
#![tactic(auto)]

// How a search ends.
#[derive(Clone, Copy, Debug, PartialEq, Eq)]
pub enum Ending {
    Finished,
    Full,
    Spent,
}

// Where a run of worker 0 stops: at an answer, or at the search's end. Neither is an absence, so it is no Option.
#[derive(Clone, Copy, Debug, PartialEq, Eq)]
pub enum Stop {
    Answer,
    Ended(Ending),
}

// What opening a file answers: nothing was done, for want of room; the length of the line that refuses it; or its parts, the memory loaded.
#[derive(Clone, Copy, Debug, PartialEq, Eq)]
pub enum Opened {
    NoRoom,
    Refused(usize),
    Ready(usize, usize),
}

// What the next line answers: nothing was done, for want of room; an answer's line, by its length, and the steps so far; or the last line, by its length.
#[derive(Clone, Copy, Debug, PartialEq, Eq)]
pub enum Line {
    NoRoom,
    More(usize, u32),
    Last(usize),
}
