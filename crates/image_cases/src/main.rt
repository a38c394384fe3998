// Runs the stored cases of the check of images, queries and bytes, and says how many agree. `tests/image_cases.py` writes them.
//
// A case is five words, then its words: kind, words of the image, words of the query, number and position that the check must give.
// Kind 0 is an image, 1 an image and a query, 2 to 5 the image's bytes less 0 to 3 of them, 6 a long image made here from one word.
#![tactic(auto)]

ghost use Rattle.std.specs.Prelude.{◌≡◌, ◌<◌, length, IfSome};

use model::{Refused, Verdict};
use std::{fs, io};

#[derive(Clone, Copy)]
enum Kind {
    Image,
    Query,
    // The image's bytes less so many.
    Bytes(usize),
    Long,
}

// No case is refused for its number: past 6 they stand for bytes again.
impl From<u32> for Kind {
    fn from(word: u32) -> Kind {
        match word {
            0 => Kind::Image,
            1 => Kind::Query,
            6 => Kind::Long,
            _ => Kind::Bytes((word as usize + 2) % 4),
        }
    }
}

// A stored case; its words begin at word `start`, and those of the next at word `end`.
#[derive(Clone, Copy)]
struct Case<'a> {
    kind: Kind,
    image: &'a [u32],
    query: &'a [u32],
    expected: u64,
    start: usize,
    end: usize,
}

// Number and position as the check's one number.
fn pair(number: u32, position: u32) -> u64 {
    number as u64 * 4294967296 + position as u64
}

fn answer(verdict: Verdict) -> u64 {
    match verdict {
        Ok(()) => 0,
        Err(Refused(refusal, at)) => numbers::refusal_number(refusal) as u64 * 4294967296
            + at as u64 % 4294967296,
    }
}

// Word `k`, most significant byte first, where there is room for it.
fn put(bytes: &mut [u8], k: usize, word: u32) {
    if k < bytes.len() / 4 {
        bytes[4 * k..4 * k + 4].copy_from_slice(&word.to_be_bytes());
    }
}

// 128 predicates of arity 0 that share the clauses, 1,023 each while they last.
fn put_predicates(bytes: &mut [u8], clauses: u32) {
    let mut left = clauses;
    let mut at: u32 = 129;
    for p in 0..128usize {
        let count = left.min(1023);
        put(bytes, 1 + p, count * 131072 + at);
        at += count;
        left -= count;
    }
}

fn put_clauses(bytes: &mut [u8], words: usize) {
    for k in 129..words {
        put(bytes, k, 2147483649);
    }
}

fn check_bytes(bytes: &[u8], start: usize, end: usize) -> u64 {
    match bytes.get(start..end) {
        Some(part) => host::cumbwael_check(part),
        None => 1,
    }
}

// Room for the bytes of the longest image that is made here, and some more.
fn long_room() -> [u8; 528384]
    ensures { 528384 ≡ length result }
{
    [0; 528384]
}

// The check of an image of 131,000 and so many words, all of whose clauses are CLAUSE words alone.
fn check_long(beyond: u32) -> u64 {
    let mut bytes = long_room();
    let words = 131000 + beyond % 1000;
    put(&mut bytes, 0, 268435456 + 33554432 + words % 131072);
    put_predicates(&mut bytes, words - 129);
    put_clauses(&mut bytes, words as usize);
    check_bytes(&bytes, 0, 4 * words as usize)
}

impl<'a> Case<'a> {
    // The case at word `at`, or None where there is no whole case.
    fn at(words: &'a [u32], at: usize) -> Option<Case<'a>>
        ensures { IfSome result (λ case. case.start < 1000000) }
    {
        if 900000 < at || words.len() < at + 5 {
            return None;
        }
        let start = at + 5;
        let mid = start + (words[at + 1] % 1000000) as usize;
        let end = mid + (words[at + 2] % 1000000) as usize;
        if words.len() < end {
            return None;
        }
        Some(Case {
            kind: Kind::from(words[at]),
            image: &words[start..mid],
            query: &words[mid..end],
            expected: pair(words[at + 3], words[at + 4]),
            start,
            end,
        })
    }

    // What the check says, `bytes` being those of all words.
    fn check(self, bytes: &[u8]) -> u64
        requires { self.start < 1000000 }
    {
        match self.kind {
            Kind::Image => answer(image::check_image(self.image)),
            Kind::Query => answer(image::check_query(self.image, self.query)),
            Kind::Long => match self.image.first() {
                Some(beyond) => check_long(*beyond),
                None => 1,
            },
            Kind::Bytes(less) => {
                let from = 4 * self.start;
                let whole = self.image.len() % 1000000 * 4;
                if whole < less {
                    return 1;
                }
                check_bytes(bytes, from, from + whole - less)
            }
        }
    }
}

fn run_cases(rt: &impl Print, bytes: &[u8], words: &[u32]) -> io::Result<()> {
    let mut at: usize = 0;
    let mut agree: u32 = 0;
    for _ in 0..100000u32 {
        let Some(case) = Case::at(words, at) else {
            return println!(rt; "{agree} cases agree");
        };
        if case.check(bytes) == case.expected {
            agree += 1;
        } else {
            println!(rt; "{at} is the word of a case that differs")?;
        }
        at = case.end;
    }
    Ok(())
}

fn file_room() -> [u8; 262144]
    ensures { 262144 ≡ length result }
{
    [0; 262144]
}

fn word_room() -> [u32; 65536]
    ensures { 65536 ≡ length result }
{
    [0; 65536]
}

fn main(rt: HostRuntime) -> io::Result<()> {
    let mut file = fs::open(&rt, "cases")?;
    let mut bytes = file_room();
    let n = files::read_full(&mut file, &mut bytes);
    let mut words = word_room();
    let count = words.len().min(n / 4);
    byte_words::lay_words(&bytes[..n], count, &mut words);
    run_cases(&rt, &bytes[..n], &words[..count])
}
