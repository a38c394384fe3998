// Searches for a stored query over and over, so that the time of a step can be taken from outside: it reads no clock. Prints how many searches it made, and their steps.
// The first argument names a file of words, most significant byte first: query length, query, image. The second says how many searches. Without arguments: the file `words`, once; it is workload w4 of `bench/workloads.py`, whose 10,000 answers are passed over.
#![tactic(auto)]

ghost use Rattle.std.specs.Prelude.{◌+◌, ◌≤◌, ◌<◌};
ghost use Rattle.turns.specs.Hand.{AtHand, Begun};

use engine::RunEnd;
use goals::Search;
use memory::View;
use model::Outcome;
use std::env::{Env, FillError};
use std::rt::Files;
use std::{fs, io, str};
use turns::Hand;

// The memory that a search works in.
#[derive(Drop)]
struct Memory {
    nodes: [u32; 256],
    cells: [u32; 2048],
    trail: [u32; 2048],
    arrays: [u32; 8192],
    workers: [u32; 4],
}

// What a worker has at hand through a run, beside the memory.
#[derive(Drop)]
struct Tables {
    places: [u32; 128],
    clauses: [u32; 128],
    children: [u32; 64],
}

// A number in decimal, up to the first byte that is no digit, of nine digits at the most.
fn number(text: &[u8]) -> u32 {
    let mut value: u32 = 0;
    for digit in text {
        if !digit.is_ascii_digit() || 99999999 < value {
            return value;
        }
        value = 10 * value + u32::from(*digit - b'0');
    }
    value
}

fn is_answer(outcome: Outcome) -> bool {
    matches!(outcome, Outcome::Answer)
}

// The steps that are left after a run that took so many: none where it ended in anything but an answer. One that took none would end the search too, so that it is seen to end.
fn left_after(left: u32, steps: u32, outcome: Outcome) -> u32
    requires { (0 < left) × (steps ≤ left) }
    ensures { (result < left) × (result + steps ≤ left) }
{
    if steps == 0 {
        return 0;
    }
    if !is_answer(outcome) {
        return 0;
    }
    left - steps
}

impl Memory {
    fn new() -> Memory {
        Memory {
            nodes: [0; 256],
            cells: [0; 2048],
            trail: [0; 2048],
            arrays: [0; 8192],
            workers: [0; 4],
        }
    }

    fn load(&mut self, query: &[u32]) {
        moves::load(
            query,
            &mut self.nodes,
            &mut self.cells,
            &mut self.trail,
            &mut self.arrays,
            &mut self.workers,
        );
    }

    fn begin(&self, hand: &mut Tables)
        ensures { Begun self.now.nodes hand.new.places hand.new.clauses hand.new.children }
    {
        let mut lent = Hand {
            places: &mut hand.places,
            clauses: &mut hand.clauses,
            children: &mut hand.children,
        };
        engine::begin(&self.nodes, &mut lent);
    }

    fn run<'a>(
        &mut self,
        hand: &mut Tables,
        image: &'a [u32],
        query: &'a [u32],
        left: u32,
    ) -> RunEnd
        requires { AtHand image.now query.now self.old.nodes hand.old.places hand.old.clauses hand.old.children }
        ensures { AtHand image.now query.now self.new.nodes hand.new.places hand.new.clauses hand.new.children }
    {
        let arrays = &mut self.arrays[..];
        let own: usize = 2048;
        let array = &mut arrays[..own];
        let mut view = View {
            nodes: &mut self.nodes,
            cells: &mut self.cells,
            trail: &mut self.trail,
            array,
            workers: &mut self.workers,
        };
        let mut lent = Hand {
            places: &mut hand.places,
            clauses: &mut hand.clauses,
            children: &mut hand.children,
        };
        engine::run_on(Search { image, query }, &mut view, &mut lent, 0, left)
    }

    // Runs by worker 0 until one ends in anything but an answer, of 65,535 steps in all, as document 01's desk program takes. Answers how many it took.
    fn steps<'a>(&mut self, hand: &mut Tables, image: &'a [u32], query: &'a [u32]) -> u32
        requires { AtHand image.now query.now self.old.nodes hand.old.places hand.old.clauses hand.old.children }
        ensures { result ≤ 65535 }
    {
        let mut total: u32 = 0;
        let mut left: u32 = 65535;
        // The runs take unequal numbers of steps.
        while 0 < left {
            let end = self.run(hand, image, query, left);
            // A run never takes more steps than it may; the least of both saves a proof.
            let count = end.count.min(left);
            total += count;
            left = left_after(left, count, end.outcome);
        }
        total
    }

    // One search, from a memory that is set afresh.
    fn search<'a>(&mut self, image: &'a [u32], query: &'a [u32]) -> u32
        ensures { result ≤ 65535 }
    {
        self.load(query);
        let mut hand = Tables {
            places: [0; 128],
            clauses: [0; 128],
            children: [0; 64],
        };
        self.begin(&mut hand);
        self.steps(&mut hand, image, query)
    }
}

// So many searches in one memory; answers their steps.
fn searches<'a>(image: &'a [u32], query: &'a [u32], times: u32) -> u64 {
    let mut memory = Memory::new();
    let mut total: u64 = 0;
    for _ in 0..times {
        total += u64::from(memory.search(image, query));
    }
    total
}

fn say(rt: &impl Print, times: u32, total: u64) -> io::Result<()> {
    println!(rt; "{times} runs, {total} steps")
}

// The pair is judged once, as a public call judges it before it runs.
fn checked<'a>(rt: &impl Print, image: &'a [u32], query: &'a [u32], times: u32) -> io::Result<()> {
    match image::check_query(image, query) {
        Ok(()) => say(rt, times, searches(image, query, times)),
        Err(_) => println!(rt; "refused"),
    }
}

// Takes the words apart into query and image.
fn parted(rt: &impl Print, words: &[u32], times: u32) -> io::Result<()> {
    let end = 1 + words::word_at(words, 0) as usize;
    if words.len() < end {
        return println!(rt; "refused");
    }
    checked(rt, &words[end..], &words[1..end], times)
}

// A name that is no text is that of no file, as an empty one.
fn open_named<R: Files>(rt: &R, name: &[u8]) -> io::Result<R::File> {
    match str::from_utf8(name) {
        Ok(path) => fs::open(rt, path),
        Err(_) => fs::open(rt, ""),
    }
}

fn open<R: Files + Env>(rt: &R) -> io::Result<R::File> {
    let mut path = [0u8; 4096];
    match rt.arg(1, &mut path) {
        Ok(size) => open_named(rt, &path[..size]),
        Err(FillError::NotPresent) => fs::open(rt, "words"),
        Err(FillError::TooLong) => fs::open(rt, ""),
    }
}

// An argument of more than 16 bytes is no number, and counts as an empty one.
fn times(rt: &impl Env) -> u32 {
    let mut text = [0u8; 16];
    match rt.arg(2, &mut text) {
        Ok(size) => number(&text[..size]),
        Err(FillError::NotPresent) => 1,
        Err(FillError::TooLong) => 0,
    }
}

fn main(rt: HostRuntime) -> io::Result<()> {
    let mut file = open(&rt)?;
    let mut bytes = [0u8; 65536];
    let size = files::read_full(&mut file, &mut bytes);
    let mut words = [0u32; 16384];
    let count = words.len().min(size / 4);
    byte_words::lay_words(&bytes[..size], count, &mut words);
    parted(&rt, &words[..count], times(&rt))
}
