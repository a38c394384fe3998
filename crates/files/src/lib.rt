// What the programs read a file with. No promise can say which bytes a file has: of a reader that says what it has left, the bytes read are those.
#![tactic(auto)]

ghost use Rattle.std.specs.Prelude.{◌≡◌, ◌*◌, ◌/◌, ◌≤◌, List, ℕ, length, take};
ghost use Rattle.std.specs.Int.{w32, from_be_bytes};
ghost use Rattle.std.specs.Io.KnownBytes.{Consumes};

use std::io::Read;

// Reads until the bytes are full, the file ends or a read fails, and answers how many bytes it has put in front. A failed read counts as the file's end. No `for`: a read may bring any number of bytes.
pub fn read_full<R: Read>(file: &mut R, bytes: &mut [u8]) -> usize
    ensures bound { result ≤ length bytes.new }
    ensures taken { Consumes (R.remaining file.old) (R.remaining file.new) (take result bytes.new) }
{
    let mut done: usize = 0;
    while done < bytes.len() {
        match file.read(&mut bytes[done..]) {
            Ok(0) | Err(_) => return done,
            Ok(count) => done += count,
        }
    }
    done
}

// A word, most significant byte first. Past the end of the file it is 0, and a file that ends within a word reads on as zeros.
pub fn next_word<R: Read>(file: &mut R) -> u32
    ensures { (bytes : List ℕ) × (count : ℕ) × (count ≤ 4) × (result ≡ from_be_bytes w32 bytes) × (Consumes (R.remaining file.old) (R.remaining file.new) (take count bytes)) }
{
    let mut four = [0u8; 4];
    read_full(file, &mut four);
    u32::from_be_bytes(four)
}

// As many words as there is room for.
pub fn read_words<R: Read>(file: &mut R, words: &mut [u32])
    ensures { (bytes : List ℕ) × (length bytes ≤ 4 * length words.new) × (Consumes (R.remaining file.old) (R.remaining file.new) bytes) }
{
    for word in words.iter_mut() {
        *word = next_word(file);
    }
}
