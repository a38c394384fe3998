// Packing and unpacking the spread form: document 01, "Rule image", last paragraph.
#![tactic(auto)]

mod groups;
mod kept;
mod spreading;

ghost use Rattle.std.specs.Prelude.{◌≡◌, ◌++◌, ◌+◌, ◌≤◌, ◌<◌, length, drop};
ghost use Rattle.model.specs.Fields.{widths_of, kept_fields};
ghost use Rattle.model.specs.Spread.{packed_word, group_size, judged, scan, packed, written_to, write_out, pack, unpack};
ghost use Rattle.image.specs.LongImages.{long_fault};

use groups::{kind_at, scan_list};
use kept::{placed_kept, size_of};
use model::{Fault, Kind, Refusal, Refused, Written};
use spreading::{spread_size, spread_words};

// The word of a group in which nothing is wrong, field by field.
#[inline(always)]
fn join_of(list: &[u32], kind: Kind, at: usize) -> u32
    requires { judged (widths_of kind) (kept_fields kind) at (drop at list.now) ≡ Ok (at + group_size kind) }
    ensures { result ≡ packed_word kind (drop at list.now) }
{
    let mut word: u32 = 0;
    for j in 0..size_of(kind) {
        word += placed_kept(list[at + j], kind, j);
    }
    word
}

// The word of a group in which nothing is wrong. The kind is known at each call, so that the compiler leaves no loop over its fields.
#[inline(always)]
fn join_group(list: &[u32], kind: Kind, at: usize) -> u32
    requires { judged (widths_of kind) (kept_fields kind) at (drop at list.now) ≡ Ok (at + group_size kind) }
    ensures { result ≡ packed_word kind (drop at list.now) }
{
    match kind {
        Kind::Header => join_of(list, Kind::Header, at),
        Kind::Predicate => join_of(list, Kind::Predicate, at),
        Kind::Clause => join_of(list, Kind::Clause, at),
        Kind::Var => join_of(list, Kind::Var, at),
        Kind::Con => join_of(list, Kind::Con, at),
        Kind::Goal => join_of(list, Kind::Goal, at),
        _ => join_of(list, kind, at),
    }
}

// All words of a list in which nothing is wrong.
fn pack_words(list: &[u32], words: &mut [u32])
    requires { scan list.now ≡ Ok (length words.old) }
    ensures { words.new ≡ packed list.now }
{
    let count = words::word_at(list, 1);
    let mut at: usize = 0;
    let mut number: usize = 0;
    // Groups have unequal lengths, so their places are not counted.
    while at < list.len() {
        let first = list[at];
        let kind = kind_at(count, number, first);
        let word = join_group(list, kind, at);
        words[number] = word;
        at += size_of(kind);
        number += 1;
    }
}

// Word by word: the library's own copy would need `memmove` of the host that the archive for C is linked into.
fn copy(words: &[u32], room: &mut [u32])
    requires { length words.now ≤ length room.old }
    ensures { room.new ≡ words.now ++ drop (length words.now) room.old }
{
    for i in 0..words.len() {
        room[i] = words[i];
    }
}

// 26 where the room is too small, and then nothing is written.
#[tactic(auto, unfolding(model::specs::Spread::write_out))]
fn write_out(words: &[u32], room: &mut [u32]) -> Written
    ensures { written_to result room.new ≡ write_out words.now room.old }
{
    if room.len() < words.len() {
        return Err(Refused(Refusal::Room, 0));
    }
    copy(words, room);
    Ok(words.len())
}

// The fault of an image of more than 131,071 words that begins with `word`.
#[tactic(auto, unfolding(image::specs::LongImages::long_fault))]
fn long_fault(word: u32) -> Fault
    ensures { result ≡ long_fault word }
{
    if words::edition(word) != 1 {
        return Fault::WrongEdition;
    }
    if words::predicate_count(word) == 0 {
        return Fault::NoPredicates;
    }
    if words::header_zero(word) != 0 {
        return Fault::ZeroField;
    }
    Fault::LengthField
}

// The length field has 17 bits, so a list of more than 131,071 words is refused by its header alone.
fn pack_long(list: &[u32], count: usize, room: &mut [u32]) -> Written
    requires through { scan list.now ≡ Ok count }
    requires long { 131071 < count }
    ensures { written_to result room.new ≡ pack list.now room.old }
{
    let word = join_group(list, Kind::Header, 0);
    Err(Refused(Refusal::Image(long_fault(word)), 0))
}

// The words are packed beside the room, which stays as it is until they are found legal.
#[tactic(auto, unfolding(model::specs::Spread::pack))]
fn pack_beside(list: &[u32], words: &mut [u32], room: &mut [u32]) -> Written
    requires { scan list.now ≡ Ok (length words.old) }
    ensures { written_to result room.new ≡ pack list.now room.old }
{
    pack_words(list, words);
    image::check_image(words)?;
    write_out(words, room)
}

// The words are packed in an array of N.
fn pack_in<const N: usize>(list: &[u32], count: usize, room: &mut [u32]) -> Written
    requires through { scan list.now ≡ Ok count }
    requires fits { (count ≤ N) × (N ≤ 131072) }
    ensures { written_to result room.new ≡ pack list.now room.old }
{
    let mut words = [0u32; N];
    pack_beside(list, &mut words[..count], room)
}

// The largest image's words are 512 KiB of stack; for a small one they are not filled.
fn pack_short(list: &[u32], count: usize, room: &mut [u32]) -> Written
    requires through { scan list.now ≡ Ok count }
    requires fits { count < 131072 }
    ensures { written_to result room.new ≡ pack list.now room.old }
{
    if count <= 1024 {
        return pack_in::<1024>(list, count, room);
    }
    pack_in::<131072>(list, count, room)
}

// From a spread list to the image that it is the spread form of.
#[tactic(auto, unfolding(model::specs::Spread::pack))]
pub fn pack(list: &[u32], room: &mut [u32]) -> Written
    ensures { written_to result room.new ≡ pack list.now room.old }
{
    let count = scan_list(list)?;
    if 131071 < count {
        return pack_long(list, count, room);
    }
    pack_short(list, count, room)
}

// From a legal image to its spread form.
#[tactic(auto, unfolding(model::specs::Spread::unpack, model::specs::Spread::write_out))]
pub fn unpack(image: &[u32], room: &mut [u32]) -> Written
    ensures { written_to result room.new ≡ unpack image.now room.old }
{
    image::check_image(image)?;
    let size = spread_size(image);
    if room.len() < size {
        return Err(Refused(Refusal::Room, 0));
    }
    spread_words(image, room);
    Ok(size)
}
