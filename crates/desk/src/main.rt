// The desk program of document 01: it reads a file of words, which its first argument names, or else standard input, and prints the listing of its search.
// What it prints is said by `listing` of `desk_model`; here bytes are only read, handed on and written.
#![tactic(auto)]

mod help;

ghost use Rattle.std.specs.Prelude.{◌≡◌, ◌+◌, ◌≤◌, length, IfOk};
ghost use Rattle.desk_model.specs.Desk.{line_size};
ghost use Rattle.listing.specs.Fits.{Fits};

use desk_model::{Line, Opened};
use std::env::{Env, FillError};
use std::rt::Files;
use std::{fs, io, str};

// Where query and image stand among the words of a file: the query's length, and the count of all words.
#[derive(Clone, Copy)]
struct Parts {
    size: usize,
    count: usize,
    ghost query_within: { 1 + size ≤ count },
    ghost file_small: { count ≤ 1297 },
}

// The words of the file, and the memory that the search works in.
#[derive(Drop)]
struct Search {
    words: [u32; 1297],
    nodes: [u32; 256],
    cells: [u32; 2048],
    trail: [u32; 2048],
    arrays: [u32; 8192],
    workers: [u32; 4],
}

impl Search {
    fn new() -> Search {
        Search {
            words: [0; 1297],
            nodes: [0; 256],
            cells: [0; 2048],
            trail: [0; 2048],
            arrays: [0; 8192],
            workers: [0; 4],
        }
    }

    fn open(&mut self, bytes: &[u8], line: &mut [u8]) -> Opened
        ensures { Fits result }
    {
        listing::open(
            bytes,
            &mut self.words,
            &mut self.nodes,
            &mut self.cells,
            &mut self.trail,
            &mut self.arrays,
            &mut self.workers,
            line,
        )
    }

    fn next_line(&mut self, parts: Parts, steps: u32, line: &mut [u8]) -> Line
        ensures { line_size result ≤ 1024 }
    {
        let words: &[u32] = &self.words;
        let start = 1 + parts.size;
        listing::next_line(
            &words[start..parts.count],
            &words[1..start],
            &mut self.nodes,
            &mut self.cells,
            &mut self.trail,
            &mut self.arrays,
            &mut self.workers,
            steps,
            line,
        )
    }
}

// Lines that are gathered and written out together, since a write for each takes longer.
#[derive(Drop)]
struct Block {
    bytes: [u8; 65536],
    filled: usize,
    ghost filled_within: { filled ≤ 65536 },
}

impl Block {
    fn new() -> Block
        ensures { result.filled ≡ 0 }
    {
        Block {
            bytes: [0; 65536],
            filled: 0,
        }
    }

    fn write(&mut self, rt: &impl Print) -> io::Result<()>
        ensures { IfOk result (λ _. self.new.filled ≡ 0) }
    {
        rt.write_all(&self.bytes[..self.filled])?;
        self.filled = 0;
        Ok(())
    }

    // Writes the lines out where there is no room for one more.
    fn make_room(&mut self, rt: &impl Print) -> io::Result<()>
        ensures { IfOk result (λ _. self.new.filled + 1024 ≤ 65536) }
    {
        if self.filled <= 65536 - 1024 {
            return Ok(());
        }
        self.write(rt)
    }
}

// More than the 5,188 bytes of the longest file, so that a longer one is seen to be too long.
fn file_room() -> [u8; 8192]
    ensures { 8192 ≡ length result }
{
    [0; 8192]
}

// What the first argument may fill: a longer one names no file.
fn path_room() -> [u8; 4096]
    ensures { 4096 ≡ length result }
{
    [0; 4096]
}

// A file that cannot be opened or read counts as an empty one, or as what was read before.
fn read_named(rt: &impl Files, name: &[u8], bytes: &mut [u8]) -> usize
    ensures { result ≤ length bytes.new }
{
    let Ok(path) = str::from_utf8(name) else {
        return 0;
    };
    let Ok(mut file) = fs::open(rt, path) else {
        return 0;
    };
    files::read_full(&mut file, bytes)
}

// Prints the next line by way of the block. Answers the steps so far, or None after the last line.
fn print_line(
    rt: &impl Print,
    search: &mut Search,
    parts: Parts,
    steps: u32,
    block: &mut Block,
) -> io::Result<Option<u32>>
    requires { block.old.filled + 1024 ≤ 65536 }
    ensures { IfOk result (λ _. block.new.filled + 1024 ≤ 65536) }
{
    let at = block.filled;
    match search.next_line(parts, steps, &mut block.bytes[at..at + 1024]) {
        Line::NoRoom => Ok(None),
        Line::Last(size) => {
            block.filled = at + size;
            block.write(rt)?;
            Ok(None)
        }
        Line::More(size, so_far) => {
            block.filled = at + size;
            block.make_room(rt)?;
            Ok(Some(so_far))
        }
    }
}

// There is at most an answer for each of 65,535 steps, and the last line.
fn print_lines(
    rt: &impl Print,
    search: &mut Search,
    parts: Parts,
    block: &mut Block,
) -> io::Result<()>
    requires { block.old.filled + 1024 ≤ 65536 }
{
    let mut steps: u32 = 0;
    for _ in 0..65536 {
        let Some(so_far) = print_line(rt, search, parts, steps, block)? else {
            return Ok(());
        };
        steps = so_far;
    }
    Ok(())
}

// The listing of a file.
#[tactic(auto, unfolding(listing::specs::Fits::Fits))]
fn print_listing(rt: &impl Print, bytes: &[u8]) -> io::Result<()> {
    let mut search = Search::new();
    let mut block = Block::new();
    match search.open(bytes, &mut block.bytes) {
        Opened::NoRoom => Ok(()),
        Opened::Refused(size) => {
            block.filled = size;
            block.write(rt)
        }
        Opened::Ready(size, count) => {
            print_lines(rt, &mut search, Parts { size, count }, &mut block)
        }
    }
}

// Without an argument it reads standard input.
fn main(rt: HostRuntime) -> io::Result<()> {
    let mut path = path_room();
    let mut bytes = file_room();
    let n = match rt.arg(1, &mut path) {
        Ok(length) => {
            if help::is_asked(&path[..length]) {
                return help::print(&rt);
            }
            read_named(&rt, &path[..length], &mut bytes)
        }
        Err(FillError::NotPresent) => files::read_full(&mut rt.reader(), &mut bytes),
        Err(FillError::TooLong) => 0,
    };
    print_listing(&rt, &bytes[..n])
}
