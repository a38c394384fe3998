// What is stored: lists of words; calls with what they must answer; changes of one word.
ghost use Rattle.std.specs.Prelude.{◌≤◌, length};

use files::{next_word, read_words};
use std::fs::File;

#[derive(Clone, Copy)]
pub enum Kind {
    Load,
    Step,
    Run,
    Move,
    Read,
    // Any other number stands for a run too, and is counted by itself.
    Other(u32),
}

impl From<u32> for Kind {
    fn from(word: u32) -> Kind {
        match word {
            1 => Kind::Load,
            2 => Kind::Step,
            3 => Kind::Run,
            4 => Kind::Move,
            5 => Kind::Read,
            _ => Kind::Other(word),
        }
    }
}

#[derive(Clone, Copy, PartialEq, Eq)]
pub enum Slice {
    Nodes,
    Cells,
    Trail,
    Arrays,
    Workers,
    Image,
    Query,
}

impl Slice {
    pub fn numbered(word: u32) -> Option<Slice> {
        match word {
            1 => Some(Slice::Nodes),
            2 => Some(Slice::Cells),
            3 => Some(Slice::Trail),
            4 => Some(Slice::Arrays),
            5 => Some(Slice::Workers),
            6 => Some(Slice::Image),
            7 => Some(Slice::Query),
            _ => None,
        }
    }

    // The slice of a turn that changes a word: 0 stands for none, and numbers past 7 for the query.
    pub fn changed(word: u32) -> Option<Slice> {
        if 7 < word {
            return Some(Slice::Query);
        }
        Slice::numbered(word)
    }
}

// `given` is a run's budget, a move's slot, a read's room. One slice may be lent with another length: one word shorter, or one longer.
// Number 0 stands for a call that is not refused; then come outcome, slot and count, or what the call has of them. After a refusal's number comes its position.
#[derive(Clone, Copy)]
pub struct Call {
    pub kind: Kind,
    pub worker: u32,
    pub given: u32,
    pub slice: Option<Slice>,
    pub longer: bool,
    pub number: u32,
    pub first: u32,
    pub second: u32,
    pub third: u32,
}

impl Call {
    // What was done is stored as three numbers.
    pub fn says(self, first: u32, second: u32, third: u32) -> bool {
        first == self.first && second == self.second && third == self.third
    }

    pub fn read(file: &mut File) -> Call {
        let kind = Kind::from(next_word(file));
        let worker = next_word(file);
        let given = next_word(file);
        let slice = Slice::numbered(next_word(file));
        let longer = next_word(file) == 2;
        let number = next_word(file);
        let first = next_word(file);
        let second = next_word(file);
        let third = next_word(file);
        Call {
            kind,
            worker,
            given,
            slice,
            longer,
            number,
            first,
            second,
            third,
        }
    }

    // How much of a slice is lent: all but the spare word at its end, unless the call says otherwise.
    pub fn part(self, full: usize, slice: Slice) -> usize
        ensures { result ≤ full }
    {
        if self.slice != Some(slice) {
            return full.saturating_sub(1);
        }
        if self.longer {
            return full;
        }
        full.saturating_sub(2)
    }
}

// A word of a slice that is put in place of another.
#[derive(Clone, Copy)]
pub struct Change {
    pub slice: Slice,
    pub index: u32,
    pub value: u32,
}

impl Change {
    pub fn read(file: &mut File, slice: Slice) -> Change {
        let index = next_word(file);
        let value = next_word(file);
        Change {
            slice,
            index,
            value,
        }
    }

    // The same place gets the word that is stored next.
    pub fn next(self, file: &mut File) -> Change {
        Change {
            value: next_word(file),
            ..self
        }
    }
}

// A stored list: its length, then its words. Answers the length, or 0 where the list does not find room.
pub fn read_list(file: &mut File, words: &mut [u32]) -> usize
    ensures { result ≤ length words.new }
{
    let size = next_word(file) as usize;
    if words.len() < size {
        return 0;
    }
    read_words(file, &mut words[..size]);
    size
}
