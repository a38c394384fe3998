// The words that bytes spell, most significant byte first: document 01, "Rule image", "The signing host is written in C". Assumes nothing.
#![tactic(auto)]

ghost use Rattle.std.specs.Prelude.{◌≡◌, ◌++◌, ◌+◌, ◌*◌, ◌/◌, ◌<◌, min, length, drop};
ghost use Rattle.model.specs.Bytes.{word_of_bytes, words_from};

// Word `k` of the bytes.
#[tactic(auto, unfolding(model::specs::Bytes::word_of_bytes))]
pub fn word_of_bytes(bytes: &[u8], k: usize) -> u32
    requires { 4 * k + 3 < length bytes.now }
    ensures { result ≡ word_of_bytes bytes.now k }
{
    let at = 4 * k;
    u32::from_be_bytes([bytes[at], bytes[at + 1], bytes[at + 2], bytes[at + 3]])
}

// The first `count` words, or as many as there are and have room, at the front of `words`. Answers how many.
pub fn lay_words(bytes: &[u8], count: usize, words: &mut [u32]) -> usize
    ensures laid { result ≡ min count (min (length words.old) (length bytes.now / 4)) }
    ensures words { words.new ≡ words_from bytes.now result 0 ++ drop result words.old }
{
    let most = count.min(words.len().min(bytes.len() / 4));
    for k in 0..most {
        words[k] = word_of_bytes(bytes, k);
    }
    most
}
