// The spread form of an image, word after word: its length, and writing it.
ghost use Rattle.std.specs.Prelude.{◌≡◌, ◌+◌, ◌≤◌, length};
ghost use Rattle.std.proofs.lemmas.List.Edits.{sets};
ghost use Rattle.model.specs.Spread.{spread_word, group_size, unpacked};

use crate::groups::kind_at;
use crate::kept::{read_kept, size_of};
use model::Kind;

// The fields of a word, one to a place from `at` on.
#[inline(always)]
fn spread_of(word: u32, kind: Kind, at: usize, room: &mut [u32])
    requires { at + group_size kind ≤ length room.old }
    ensures { room.new ≡ sets room.old at (spread_word kind word) }
{
    for j in 0..size_of(kind) {
        room[at + j] = read_kept(word, kind, j);
    }
}

// The fields of a word, one to a place from `at` on. The kind is known at each call, so that the compiler leaves no loop over them.
#[inline(always)]
fn spread_word(word: u32, kind: Kind, at: usize, room: &mut [u32])
    requires { at + group_size kind ≤ length room.old }
    ensures { room.new ≡ sets room.old at (spread_word kind word) }
{
    match kind {
        Kind::Header => spread_of(word, Kind::Header, at, room),
        Kind::Predicate => spread_of(word, Kind::Predicate, at, room),
        Kind::Clause => spread_of(word, Kind::Clause, at, room),
        Kind::Var => spread_of(word, Kind::Var, at, room),
        Kind::Con => spread_of(word, Kind::Con, at, room),
        Kind::Goal => spread_of(word, Kind::Goal, at, room),
        _ => spread_of(word, kind, at, room),
    }
}

// The length of an image's spread form.
pub fn spread_size(image: &[u32]) -> usize
    ensures { result ≡ length (unpacked image.now) }
{
    let count = words::predicate_count(words::word_at(image, 0));
    let mut size: usize = 0;
    for (i, &word) in image.iter().enumerate() {
        size += size_of(kind_at(count, i, words::op(word)));
    }
    size
}

pub fn spread_words(image: &[u32], room: &mut [u32])
    requires { length (unpacked image.now) ≤ length room.old }
    ensures { room.new ≡ sets room.old 0 (unpacked image.now) }
{
    let count = words::predicate_count(words::word_at(image, 0));
    let mut at: usize = 0;
    for (i, &word) in image.iter().enumerate() {
        let kind = kind_at(count, i, words::op(word));
        spread_word(word, kind, at, room);
        at += size_of(kind);
    }
}
