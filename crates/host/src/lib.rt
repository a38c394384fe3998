// What the signing host in C calls: functions over its slices. `host_c` exports each under its name; `include/cumbwael.h` declares them.
#![tactic(auto)]

mod answers;
mod search;

ghost use Rattle.std.specs.Prelude.{◌≡◌, ◌+◌, ◌*◌, ◌≤◌, ◌<◌, length};
ghost use Rattle.model.specs.Numbers.{verdict_number};
ghost use Rattle.model.specs.Image.{check_image, check_query};
ghost use Rattle.model.specs.Bytes.{words_from, check_bytes};
ghost use Rattle.model.specs.Spread.{pack, unpack};
ghost use Rattle.host.specs.Near.{Near};
ghost use Rattle.host.specs.Answers.{answer_of_check, filled, of_writing};

use model::{Fault, Refusal, Refused, Verdict};
pub use search::{cumbwael_load, cumbwael_move, cumbwael_read, cumbwael_run, cumbwael_step};

// What every other call answers: the number of the refusal, 0 if there is none, and its position; else what was done. What does not apply is 0.
#[repr(C)]
#[derive(Clone, Copy)]
pub struct Answer {
    pub refusal: u32,
    pub position: u32,
    pub outcome: u32,
    pub slot: u32,
    pub count: u32,
}

// Number times 2^32 plus position, 0 if legal.
fn verdict_number(verdict: Verdict) -> u64
    requires { Near verdict }
    ensures { result ≡ verdict_number verdict }
{
    match verdict {
        Ok(()) => 0,
        Err(Refused(refusal, at)) => numbers::refusal_number(refusal) as u64 * 4294967296
            + at as u64,
    }
}

// The check of the first `count` words, which are laid out in `words`, so that the image is judged as words.
fn check_words(words: &mut [u32], bytes: &[u8], count: usize) -> u64
    requires { (count ≤ 131072) × (count ≤ length words.old) × (4 * count ≤ length bytes.now) }
    ensures { result ≡ verdict_number (check_image (words_from bytes.now count 0)) }
{
    byte_words::lay_words(bytes, count, words);
    verdict_number(image::check_image(&words[..count]))
}

// The check of the first `count` words, laid out in an array of N.
fn check_in<const N: usize>(bytes: &[u8], count: usize) -> u64
    requires { (count ≤ N) × (N ≤ 131072) × (4 * count ≤ length bytes.now) }
    ensures { result ≡ verdict_number (check_image (words_from bytes.now count 0)) }
{
    let mut words = [0u32; N];
    check_words(&mut words, bytes, count)
}

// The check of an image handed as bytes, most significant first.
pub fn cumbwael_check(bytes: &[u8]) -> u64
    ensures { result ≡ check_bytes bytes.now }
{
    let count = (bytes.len() / 4).min(131072);
    let rest = bytes.len() % 4;
    if rest != 0 {
        return verdict_number(Err(Refused(Refusal::Image(Fault::EndsEarly), count)));
    }
    // For a small image the room of the largest is not filled.
    if count <= 1024 {
        return check_in::<1024>(bytes, count);
    }
    check_in::<131072>(bytes, count)
}

// The check of a query against its image, both as words. The image is judged first.
pub fn cumbwael_check_query(image: &[u32], query: &[u32]) -> Answer
    ensures { result ≡ answer_of_check (check_query image.now query.now) }
{
    Answer::from(image::check_query(image, query))
}

// From a spread list to the image that it is the spread form of.
pub fn cumbwael_pack(list: &[u32], room: &mut [u32]) -> Answer
    ensures { filled result room.new ≡ of_writing (pack list.now room.old) }
{
    Answer::from(spread::pack(list, room))
}

// From a legal image to its spread form.
pub fn cumbwael_unpack(image: &[u32], room: &mut [u32]) -> Answer
    ensures { filled result room.new ≡ of_writing (unpack image.now room.old) }
{
    Answer::from(spread::unpack(image, room))
}
