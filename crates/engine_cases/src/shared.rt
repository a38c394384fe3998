// Image, query and the shared memory of the schedules, each slice with a spare word at its end, for the calls that lend one more than they should.
ghost use Rattle.std.specs.Prelude.{◌≤◌};

use crate::answers::digest;
use crate::calling::answer_agrees;
use crate::stored::{Call, Change, Slice, read_list};
use crate::tally::Tally;
use bindings::Tree;
use files::next_word;
use goals::Search;
use std::fs::File;

#[derive(Drop)]
pub struct Shared {
    image: [u32; 2048],
    query: [u32; 512],
    // How many words of those there are, the spare word with them.
    image_words: usize,
    query_words: usize,
    nodes: [u32; 257],
    cells: [u32; 2049],
    trail: [u32; 2049],
    arrays: [u32; 8193],
    workers: [u32; 5],
    ghost image_fits: { image_words ≤ 2048 },
    ghost query_fits: { query_words ≤ 512 },
}

fn put(words: &mut [u32], change: Change) {
    if let Some(word) = words.get_mut(change.index as usize) {
        *word = change.value;
    }
}

fn without_spare(words: &[u32]) -> &[u32] {
    &words[..words.len().saturating_sub(1)]
}

impl Shared {
    pub fn new() -> Shared {
        Shared {
            image: [0; 2048],
            query: [0; 512],
            image_words: 0,
            query_words: 0,
            nodes: [0; 257],
            cells: [0; 2049],
            trail: [0; 2049],
            arrays: [0; 8193],
            workers: [0; 5],
        }
    }

    // The image and the query of the next schedule; the memory is what the schedule before has left.
    pub fn read_rules(&mut self, file: &mut File) {
        self.image_words = read_list(file, &mut self.image);
        self.query_words = read_list(file, &mut self.query);
    }

    // One number for all words of the memory.
    fn digest(&self) -> u64 {
        let of_nodes = digest(&self.nodes, 1);
        let of_cells = digest(&self.cells, of_nodes);
        let of_trail = digest(&self.trail, of_cells);
        let of_arrays = digest(&self.arrays, of_trail);
        digest(&self.workers, of_arrays)
    }

    fn put(&mut self, change: Change) {
        let image_words = self.image_words;
        let query_words = self.query_words;
        match change.slice {
            Slice::Nodes => put(&mut self.nodes, change),
            Slice::Cells => put(&mut self.cells, change),
            Slice::Trail => put(&mut self.trail, change),
            Slice::Arrays => put(&mut self.arrays, change),
            Slice::Workers => put(&mut self.workers, change),
            Slice::Image => {
                let image = &mut self.image[..];
                put(&mut image[..image_words], change)
            }
            Slice::Query => {
                let query = &mut self.query[..];
                put(&mut query[..query_words], change)
            }
        }
    }

    fn is_sound(&self) -> bool {
        let search = Search {
            image: without_spare(&self.image[..self.image_words]),
            query: without_spare(&self.query[..self.query_words]),
        };
        let tree = Tree {
            nodes: without_spare(&self.nodes),
            cells: without_spare(&self.cells),
            trail: without_spare(&self.trail),
        };
        audit::sound(
            search,
            tree,
            without_spare(&self.arrays),
            without_spare(&self.workers),
        )
    }

    // Verdict 0 damaged, 1 sound; 2: not asked, since image or query is not legal.
    fn verdict_agrees(&self, verdict: u32) -> bool {
        match verdict {
            0 => !self.is_sound(),
            1 => self.is_sound(),
            2 => true,
            _ => false,
        }
    }

    // All slices are lent with the lengths that the call asks for; image and query have a spare word too.
    fn lent_agrees(&mut self, file: &mut File, call: Call) -> bool {
        let image_words = call.part(self.image_words, Slice::Image);
        let query_words = call.part(self.query_words, Slice::Query);
        let image: &[u32] = &self.image;
        let query: &[u32] = &self.query;
        let nodes = &mut self.nodes[..];
        let cells = &mut self.cells[..];
        let trail = &mut self.trail[..];
        let arrays = &mut self.arrays[..];
        let workers = &mut self.workers[..];
        answer_agrees(
            file,
            call,
            &image[..image_words],
            &query[..query_words],
            &mut nodes[..call.part(257, Slice::Nodes)],
            &mut cells[..call.part(2049, Slice::Cells)],
            &mut trail[..call.part(2049, Slice::Trail)],
            &mut arrays[..call.part(8193, Slice::Arrays)],
            &mut workers[..call.part(5, Slice::Workers)],
        )
    }

    // The answer and the digest of all words agree with what is stored.
    pub fn call_agrees(&mut self, file: &mut File, tally: &mut Tally) -> bool {
        let call = Call::read(file);
        let high = next_word(file) as u64;
        let low = next_word(file) as u64;
        let good = self.lent_agrees(file, call);
        tally.count_answer(call);
        self.digest() == high * 4294967296 + low && good
    }

    // A memory, an image or a query changed in one word: judged as it stands, used by a call, and put right again.
    // Stored are the place and the word put there; the verdict and the call; the word that the place gets afterwards.
    pub fn changed_agrees(&mut self, file: &mut File, slice: Slice, tally: &mut Tally) -> bool {
        let change = Change::read(file, slice);
        self.put(change);
        let verdict = next_word(file);
        let judged = self.verdict_agrees(verdict);
        let good = self.call_agrees(file, tally);
        self.put(change.next(file));
        judged && good
    }
}
