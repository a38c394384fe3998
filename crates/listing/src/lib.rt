// The desk program's listing, line by line: document 01, "The desk program". `open` takes a file's bytes to a loaded memory, or to the line that refuses it;
// `next_line` then runs worker 0 to its next stop and writes the line for it. Both work in what they are lent, so a listing of any length needs no more room.
// The slices come one by one, as for the calls.
#![tactic(auto)]

ghost use Rattle.std.specs.Prelude.{◌≡◌, true, Some, List, ℕ, ◌+◌, ◌-◌, ◌≤◌, length, take, drop};
ghost use Rattle.model.specs.Memory.{memory};
ghost use Rattle.model.specs.Calls.{load_call};
ghost use Rattle.desk_model.specs.Lines.{wrote, line_in};
ghost use Rattle.desk_model.specs.Desk.{stop_of, advanced_to, advanced, stop_line, line_answer, line_size, told, next_call, begun, begun_from, open_call};
ghost use Rattle.listing.specs.Fits.{Fits};

use desk_model::{Ending, Line, Opened, Stop};
use goals::Search;
use model::{Outcome, Refused};

// The number of the refusal of a file, which no call gives: document 01, "The desk program".
const UNFIT_FILE: u32 = 28;

// Where worker 0 stopped, and the steps so far.
#[derive(Clone, Copy)]
struct StopReached {
    stop: Stop,
    steps: u32,
}

#[tactic(auto, unfolding(desk_model::specs::Desk::stop_of))]
fn stop_of(outcome: Outcome) -> Stop
    ensures { result ≡ stop_of outcome }
{
    match outcome {
        Outcome::Answer => Stop::Answer,
        Outcome::Finished => Stop::Ended(Ending::Finished),
        Outcome::Full => Stop::Ended(Ending::Full),
        Outcome::Tried
        | Outcome::Extended
        | Outcome::Back
        | Outcome::Left
        | Outcome::Wait
        | Outcome::Spent => Stop::Ended(Ending::Spent),
    }
}

// The steps that are left of 65,535.
fn budget(steps: u32) -> u32
    ensures { result ≡ 65535 - steps }
{
    65535u32.saturating_sub(steps)
}

// Worker 0 runs to its next stop.
fn advance<'a>(
    image: &'a [u32],
    query: &'a [u32],
    nodes: &mut [u32],
    cells: &mut [u32],
    trail: &mut [u32],
    arrays: &mut [u32],
    workers: &mut [u32],
    steps: u32,
) -> StopReached
    requires { length arrays.old ≡ 8192 }
    ensures { advanced_to result.stop result.steps (memory nodes.new cells.new trail.new arrays.new workers.new) ≡ advanced image.now query.now (memory nodes.old cells.old trail.old arrays.old workers.old) steps }
{
    let left = budget(steps);
    let end: usize = 2048;
    let array = &mut arrays[..end];
    let search = Search { image, query };
    let ended = engine::run(search, nodes, cells, trail, array, workers, 0, left);
    let outcome = ended.outcome;
    let count = ended.count;
    let stop = stop_of(outcome);
    StopReached {
        stop,
        steps: steps + count,
    }
}

// The line of an answer of worker 0. The promise holds whatever nodes, trail and workers are: reading does not look at them.
fn answer_line(query: &[u32], cells: &[u32], arrays: &[u32], steps: u32, line: &mut [u8]) -> usize
    requires { (length arrays.now ≡ 8192) × (1024 ≤ length line.old) }
    ensures { ((nodes trail workers : List ℕ) → wrote (Some result) line.new ≡ line_in true (stop_line Stop.Answer query.now (memory nodes cells.now trail arrays.now workers) steps) line.old) × (result ≤ 1024) }
{
    let mut room = [0u32; 64];
    let count = moves::read_answer(query, cells, arrays, 0, &mut room);
    lines::answer_line(line, steps, &room[..count]).unwrap()
}

// The line for a stop.
fn stop_line(
    stop: Stop,
    query: &[u32],
    cells: &[u32],
    arrays: &[u32],
    steps: u32,
    line: &mut [u8],
) -> usize
    requires { (length arrays.now ≡ 8192) × (1024 ≤ length line.old) }
    ensures { ((nodes trail workers : List ℕ) → wrote (Some result) line.new ≡ line_in true (stop_line stop query.now (memory nodes cells.now trail arrays.now workers) steps) line.old) × (result ≤ 1024) }
{
    match stop {
        Stop::Answer => answer_line(query, cells, arrays, steps, line),
        Stop::Ended(ending) => lines::ending_line(line, ending, steps).unwrap(),
    }
}

fn line_answer(stop: Stop, size: usize, steps: u32) -> Line
    ensures { result ≡ line_answer stop size steps }
{
    match stop {
        Stop::Answer => Line::More(size, steps),
        Stop::Ended(_) => Line::Last(size),
    }
}

// Runs worker 0 to its next stop and writes the line for it. The arrays hold 8,192 words and the line at least 1,024 bytes, or nothing is done.
pub fn next_line<'a>(
    image: &'a [u32],
    query: &'a [u32],
    nodes: &mut [u32],
    cells: &mut [u32],
    trail: &mut [u32],
    arrays: &mut [u32],
    workers: &mut [u32],
    steps: u32,
    line: &mut [u8],
) -> Line
    ensures { (told result (memory nodes.new cells.new trail.new arrays.new workers.new) line.new ≡ next_call image.now query.now (memory nodes.old cells.old trail.old arrays.old workers.old) steps line.old) × (line_size result ≤ 1024) }
{
    if arrays.len() != 8192 {
        return Line::NoRoom;
    }
    if line.len() < 1024 {
        return Line::NoRoom;
    }
    let reached = advance(image, query, nodes, cells, trail, arrays, workers, steps);
    let stop = reached.stop;
    let so_far = reached.steps;
    let size = stop_line(stop, query, cells, arrays, so_far, line);
    line_answer(stop, size, so_far)
}

// Loads a file whose words stand at the front of `words`, or writes the line that refuses it.
fn begin_parts(
    words: &[u32],
    size: usize,
    count: usize,
    nodes: &mut [u32],
    cells: &mut [u32],
    trail: &mut [u32],
    arrays: &mut [u32],
    workers: &mut [u32],
    line: &mut [u8],
) -> Opened
    requires { (1 + size ≤ count) × (count ≤ 1297) × (count ≤ length words.now) × (1024 ≤ length line.old) }
    ensures { (begun result words.now (memory nodes.new cells.new trail.new arrays.new workers.new) line.new ≡ begun_from size count words.now (memory nodes.old cells.old trail.old arrays.old workers.old) line.old) × (Fits result) }
{
    let start = 1 + size;
    match calls::load(
        &words[start..count],
        &words[1..start],
        nodes,
        cells,
        trail,
        arrays,
        workers,
    ) {
        Err(Refused(refusal, at)) => {
            let number = numbers::refusal_number(refusal);
            Opened::Refused(lines::refused_line(line, number, at).unwrap())
        }
        Ok(()) => Opened::Ready(size, count),
    }
}

// From a file's bytes to a loaded memory, the words in a room of at least 1,297, or to the line that refuses it, in a room of at least 1,024 bytes; in less room nothing is done.
pub fn open(
    bytes: &[u8],
    words: &mut [u32],
    nodes: &mut [u32],
    cells: &mut [u32],
    trail: &mut [u32],
    arrays: &mut [u32],
    workers: &mut [u32],
    line: &mut [u8],
) -> Opened
    ensures { (begun result words.new (memory nodes.new cells.new trail.new arrays.new workers.new) line.new ≡ open_call bytes.now words.old (memory nodes.old cells.old trail.old arrays.old workers.old) line.old) × (Fits result) }
{
    if words.len() < 1297 {
        return Opened::NoRoom;
    }
    if line.len() < 1024 {
        return Opened::NoRoom;
    }
    match desk_file::lay_file(bytes, words) {
        None => Opened::Refused(lines::refused_line(line, UNFIT_FILE, 0).unwrap()),
        Some((size, count)) => begin_parts(
            words, size, count, nodes, cells, trail, arrays, workers, line,
        ),
    }
}
