// A small reader of the image slice with a position: thin methods over `word_or_end`, which does the work on a slice and a number.
#![tactic(auto)]

ghost use Rattle.std.specs.Prelude.{◌≡◌, ◌<◌, length, get_or};
ghost use Rattle.reader.specs.Reading.{word_or_end};

#[derive(Clone, Copy)]
pub struct Reader<'a> {
    pub src: &'a [u32],
    pub at: usize,
}

// The word at a position, or nothing past the last one.
pub fn word_or_end(words: &[u32], at: usize) -> Option<u32>
    ensures { result ≡ word_or_end words.now at }
{
    words.get(at).copied()
}

impl<'a> Reader<'a> {
    // A reader at the slice's first word.
    pub fn new(src: &'a [u32]) -> Reader<'a>
        ensures { (result.src ≡ src.entry) × (result.at ≡ 0) }
    {
        Reader { src, at: 0 }
    }

    pub fn at(self) -> usize
        ensures { result ≡ self.entry.at }
    {
        self.at
    }

    // The word where the reader stands.
    pub fn next(self) -> Option<u32>
        ensures { result ≡ word_or_end self.entry.src.now self.entry.at }
    {
        word_or_end(self.src, self.at)
    }

    // The reader at another position.
    pub fn moved(self, at: usize) -> Reader<'a>
        ensures { (result.src ≡ self.entry.src) × (result.at ≡ at) }
    {
        Reader { at, ..self }
    }
}

// The first word of a slice.
pub fn first(words: &[u32]) -> Option<u32>
    ensures { result ≡ word_or_end words.now 0 }
{
    Reader::new(words).next()
}
