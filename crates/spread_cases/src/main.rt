// Packs and unpacks the stored lists and images of `data/cases` (made by `tests/spread_cases.py`) and compares answer and room with what is stored.
// It prints a line for each case that does not agree, and then how many agree.
#![tactic(auto)]

ghost use Rattle.std.specs.Prelude.{◌≤◌, length};

use files::{next_word, read_words};
use model::{Refused, Written};
use std::fs::File;
use std::{fs, io};

#[derive(Clone, Copy)]
enum Call {
    Pack,
    Unpack,
}

// No case is refused for its number: any but 1 is unpacked.
impl From<u32> for Call {
    fn from(word: u32) -> Call {
        if word == 1 { Call::Pack } else { Call::Unpack }
    }
}

impl Call {
    fn make(self, input: &[u32], room: &mut [u32]) -> Written {
        match self {
            Call::Pack => spread::pack(input, room),
            Call::Unpack => spread::unpack(input, room),
        }
    }
}

// What a case is read into, and the room of its call: room for the spread form of an image of 131,071 words whose clauses are facts of arity 15.
// It is made where it stays, since a stack has little more than twice its size.
#[derive(Drop)]
struct Rooms {
    input: [u32; 280000],
    room: [u32; 280000],
    words: [u32; 280000],
}

// From `from` on every word is the one `step` before it.
fn repeat(words: &mut [u32], from: usize, step: usize) {
    for i in from..words.len() {
        if i < step {
            return;
        }
        words[i] = words[i - step];
    }
}

// A stored list: the words that stand in the file, how many of the last are repeated, the length in all. Answers the length.
fn read_list(file: &mut File, list: &mut [u32]) -> usize
    ensures { result ≤ length list.new }
{
    let stored = next_word(file) as usize;
    let step = next_word(file) as usize;
    let size = next_word(file) as usize;
    if size < stored || list.len() < size {
        return 0;
    }
    read_words(file, &mut list[..stored]);
    repeat(&mut list[..size], stored, step);
    size
}

// What stands in the room before a call.
fn mark(i: usize) -> u32 {
    3221225472 + (i % 65536) as u32
}

fn fill(room: &mut [u32]) {
    for (i, word) in room.iter_mut().enumerate() {
        *word = mark(i);
    }
}

// The words stand in front, and past them what stood there before.
fn holds(room: &[u32], words: &[u32]) -> bool {
    if room.len() < words.len() {
        return false;
    }
    let (front, rest) = room.split_at(words.len());
    front == words && (0..rest.len()).all(|i| rest[i] == mark(words.len() + i))
}

// Number 0 stands for a call that wrote `value` words.
fn answers(answer: Written, number: u32, value: usize) -> bool {
    match answer {
        Ok(count) => number == 0 && count == value,
        Err(Refused(refusal, place)) => {
            numbers::refusal_number(refusal) == number && place == value
        }
    }
}

impl Rooms {
    // A stored case: which call, the room's size, number and value of the answer, the input, the words written.
    fn case_agrees(&mut self, file: &mut File) -> bool {
        let call = Call::from(next_word(file));
        let size = next_word(file) as usize;
        let number = next_word(file);
        let value = next_word(file) as usize;
        let given = read_list(file, &mut self.input);
        let count = read_list(file, &mut self.words);
        let input: &[u32] = &self.input;
        let words: &[u32] = &self.words;
        let room = &mut self.room[..];
        if room.len() < size {
            return false;
        }
        fill(&mut room[..size]);
        let answer = call.make(&input[..given], &mut room[..size]);
        answers(answer, number, value) && holds(&room[..size], &words[..count])
    }
}

// Answers how many agree.
fn run(rt: &impl Print, file: &mut File, cases: u32) -> io::Result<u32> {
    let mut rooms = Rooms {
        input: [0; 280000],
        room: [0; 280000],
        words: [0; 280000],
    };
    let mut good: u32 = 0;
    for i in 0..cases {
        if rooms.case_agrees(file) {
            good += 1;
        } else {
            println!(rt; "case fails: {i}")?;
        }
    }
    Ok(good)
}

fn main(rt: HostRuntime) -> io::Result<()> {
    let mut file = fs::open(&rt, "cases")?;
    let cases = next_word(&mut file);
    let good = run(&rt, &mut file, cases)?;
    println!(rt; "{good} of {cases} cases agree")
}
