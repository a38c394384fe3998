// The lines of the desk program's listing: document 01, "The desk program". Each public function writes one line at the front of a room of at least 1,024 bytes,
// leaves the bytes past it, and answers how long the line is; in less room it writes nothing and answers None.
#![tactic(auto)]

ghost use Rattle.std.specs.Prelude.{◌≡◌, ◌&&◌, ◌+◌, ◌*◌, ◌≤◌, ◌<◌, length, set, IfSome};
ghost use Rattle.desk_model.specs.Lines.{decimal, spaced, value_text, value_texts, answer_line, ending_name, ending_line, refused_line, written, wrote, line_in, roomy, few_values};

use desk_model::Ending;

fn put(line: &mut [u8], at: usize, byte: u8)
    ensures { line.new ≡ set line.old at byte }
{
    if at < line.len() {
        line[at] = byte;
    }
}

// From `at` on. Answers where the next byte stands, as the functions below do.
fn decimal(line: &mut [u8], at: usize, n: usize) -> usize
    requires { at < 65536 }
    ensures { (line.new ≡ written at (decimal n) line.old) × (result ≡ at + length (decimal n)) }
{
    if n < 10 {
        put(line, at, 48 + n as u8);
        return at + 1;
    }
    let end = decimal(line, at, n / 10);
    put(line, end, 48 + (n % 10) as u8);
    end + 1
}

fn spaced(line: &mut [u8], at: usize, n: usize) -> usize
    requires { at < 1024 }
    ensures { (line.new ≡ written at (spaced n) line.old) × (result ≡ at + length (spaced n)) }
{
    put(line, at, b' ');
    decimal(line, at + 1, n)
}

fn text(line: &mut [u8], bytes: &[u8]) -> usize
    requires { length bytes.now ≤ length line.old }
    ensures { (line.new ≡ written 0 bytes.now line.old) × (result ≡ length bytes.now) }
{
    line[..bytes.len()].copy_from_slice(bytes);
    bytes.len()
}

// A word of an answer, as ` cN` or ` vN`.
fn value_text(line: &mut [u8], at: usize, word: u32) -> usize
    requires { at < 1024 }
    ensures { (line.new ≡ written at (value_text word) line.old) × (result ≡ at + length (value_text word)) }
{
    put(line, at, b' ');
    if words::op(word) == words::CON_OP {
        put(line, at + 1, b'c');
        return decimal(line, at + 2, words::constant(word) as usize);
    }
    put(line, at + 1, b'v');
    decimal(line, at + 2, words::variable_number(word) as usize)
}

// All words of an answer, and the line's end.
fn value_texts(line: &mut [u8], at: usize, words: &[u32]) -> usize
    requires { (at ≤ 10) × (length words.now ≤ 64) }
    ensures { (line.new ≡ written at (value_texts words.now) line.old) × (result ≡ at + length (value_texts words.now)) }
{
    let mut end = at;
    for word in words {
        end = value_text(line, end, *word);
    }
    put(line, end, b'\n');
    end + 1
}

// An answer's line, for at most 64 values.
pub fn answer_line(line: &mut [u8], steps: u32, words: &[u32]) -> Option<usize>
    ensures { (wrote result line.new ≡ line_in (roomy line.old && few_values words.now) (answer_line steps words.now) line.old) × (IfSome result (λ size. size ≤ 1024)) }
{
    if line.len() < 1024 {
        return None;
    }
    if 64 < words.len() {
        return None;
    }
    let at = decimal(line, 0, steps as usize);
    Some(value_texts(line, at, words))
}

#[tactic(auto, unfolding(desk_model::specs::Lines::ending_name))]
fn ending_name(line: &mut [u8], ending: Ending) -> usize
    requires { 8 ≤ length line.old }
    ensures { (line.new ≡ written 0 (ending_name ending) line.old) × (result ≡ length (ending_name ending)) }
{
    match ending {
        Ending::Finished => text(line, b"finished"),
        Ending::Full => text(line, b"full"),
        Ending::Spent => text(line, b"spent"),
    }
}

// The last line of a search.
pub fn ending_line(line: &mut [u8], ending: Ending, steps: u32) -> Option<usize>
    ensures { (wrote result line.new ≡ line_in (roomy line.old) (ending_line ending steps) line.old) × (IfSome result (λ size. size ≤ 1024)) }
{
    if line.len() < 1024 {
        return None;
    }
    let at = ending_name(line, ending);
    let end = spaced(line, at, steps as usize);
    put(line, end, b'\n');
    Some(end + 1)
}

// The only line where there is no search.
pub fn refused_line(line: &mut [u8], number: u32, position: usize) -> Option<usize>
    ensures { (wrote result line.new ≡ line_in (roomy line.old) (refused_line number position) line.old) × (IfSome result (λ size. size ≤ 1024)) }
{
    if line.len() < 1024 {
        return None;
    }
    let at = text(line, b"refused");
    let middle = spaced(line, at, number as usize);
    let end = spaced(line, middle, position);
    put(line, end, b'\n');
    Some(end + 1)
}
