// The room that an answer is read into: marked before the call, held against the stored words after it.
use crate::stored::Call;
use files::next_word;
use std::fs::File;

fn mark(i: usize) -> u32 {
    3221225472 + (i % 65536) as u32
}

pub fn fill(room: &mut [u32]) {
    for (i, word) in room.iter_mut().enumerate() {
        *word = mark(i);
    }
}

// So many words come from the file, and past them stands what stood there before.
fn expected(file: &mut File, count: u32, i: usize) -> u32 {
    if i < count as usize {
        return next_word(file);
    }
    mark(i)
}

// Every stored word is read, also after one that differs, since what is stored next stands behind them.
pub fn holds(file: &mut File, room: &[u32], count: u32) -> bool {
    let mut same = true;
    for (i, word) in room.iter().enumerate() {
        same &= *word == expected(file, count, i);
    }
    same
}

// How many words a read that agrees has written.
pub fn written(call: Call) -> u32 {
    if call.number == 0 { call.first } else { 0 }
}
