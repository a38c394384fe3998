// The desk program's file: its parts, and its words laid out. Document 01, "The desk program": "query length, query, image (at most 272 and 1,024 words)".
#![tactic(auto)]

ghost use Rattle.std.specs.Prelude.{◌≡◌, ◌++◌, ◌+◌, ◌*◌, ◌≤◌, ◌<◌, length, drop};
ghost use Rattle.desk_model.specs.Desk.{file_parts, laid, lay_call};

// The longest query that a search takes, in words.
const QUERY_LIMIT: usize = 272;

fn file_parts(bytes: &[u8]) -> Option<(usize, usize)>
    ensures { result ≡ file_parts bytes.now }
{
    let length = bytes.len();
    if length == 0 {
        return None;
    }
    if length % 4 != 0 {
        return None;
    }
    let size = byte_words::word_of_bytes(bytes, 0) as usize;
    if QUERY_LIMIT < size {
        return None;
    }
    if length / 4 < 1 + size {
        return None;
    }
    if 1024 < length / 4 - (1 + size) {
        return None;
    }
    Some((size, length / 4))
}

// A file's parts, and its words at the front of a room of at least 1,297. None where the file is unfit, or the room too small; the room is then left as it is.
pub fn lay_file(bytes: &[u8], words: &mut [u32]) -> Option<(usize, usize)>
    ensures { laid result words.new ≡ lay_call bytes.now words.old }
{
    if words.len() < 1297 {
        return None;
    }
    let (size, count) = file_parts(bytes)?;
    byte_words::lay_words(bytes, count, words);
    Some((size, count))
}
