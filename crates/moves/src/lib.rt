// Load, moves and reading an answer, in words: document 01, "The steps", last paragraph, and "Refused calls" on load.
// Nothing is judged here. A move and a read work in the worker's own part of the arrays. The slices come one by one, as the calls lend them.
#![tactic(auto)]

ghost use Rattle.std.specs.Prelude.{◌≡◌, List, [], ◌∷◌, ◌++◌, ℕ, ◌+◌, ◌*◌, ◌≤◌, ◌<◌, length, get_or, set, take, drop, replicate};
ghost use Rattle.model.specs.declared.Kind.TheVariants.{Var, Con};
ghost use Rattle.model.specs.Fields.{variables};
ghost use Rattle.model.specs.Memory.{memory, word_of, cell_of, array_of};
ghost use Rattle.model.specs.Terms.{dereference};
ghost use Rattle.model.specs.Moves.{loaded, common_ancestor, leg, legs, moved, move, place_of, with_number, answer_word, seen_with_found, answer_from, answer};

use memory::{PutIn, TakeOut};
use model::{CellAddr, Found, Kind};

// Where the paths of two slots to the root meet: the deeper one climbs.
pub fn common_ancestor(nodes: &[u32], slot: u32, other: u32) -> u32
    ensures { result ≡ common_ancestor nodes.now slot other }
{
    let mut here = slot;
    let mut there = other;
    let most = memory::depth(nodes, slot) + memory::depth(nodes, other);
    for _ in 0..most {
        if here == there {
            return here;
        }
        if memory::depth(nodes, here) < memory::depth(nodes, there) {
            there = memory::parent(nodes, there);
        } else {
            here = memory::parent(nodes, here);
        }
    }
    here
}

// Takes one worker's array from a slot to another, and counts the entries passed.
fn move_array(array: &mut [u32], nodes: &[u32], trail: &[u32], here: u32, target: u32) -> u32
    ensures { leg array.new result ≡ legs nodes.now trail.now here target array.old }
{
    let ancestor = common_ancestor(nodes, here, target);
    let above = memory::depth(nodes, here);
    let below = memory::depth(nodes, target);
    let passed = memory::climb::<TakeOut>(array, nodes, trail, ancestor, here, above, 0);
    memory::climb::<PutIn>(array, nodes, trail, ancestor, target, below, passed)
}

// Takes a worker to a slot, and answers how many entries it passed. The promise holds whatever the cells are: a move does not look at them.
pub fn move_to(
    nodes: &[u32],
    trail: &[u32],
    arrays: &mut [u32],
    workers: &mut [u32],
    worker: u32,
    target: u32,
) -> u32
    requires { (length arrays.old ≡ 8192) × (worker < 4) }
    ensures { (cells : List ℕ) → moved result (memory nodes.now cells trail.now arrays.new workers.new) ≡ move (memory nodes.now cells trail.now arrays.old workers.old) worker target }
{
    let here = words::word_at(workers, worker as usize);
    let base = 2048 * worker as usize;
    let end = base + 2048;
    let passed = move_array(&mut arrays[base..end], nodes, trail, here, target);
    words::put(workers, worker as usize, target);
    passed
}

// All words are 0.
fn wipe(
    nodes: &mut [u32],
    cells: &mut [u32],
    trail: &mut [u32],
    arrays: &mut [u32],
    workers: &mut [u32],
)
    requires { (length nodes.old ≡ 256) × (length cells.old ≡ 2048) × (length trail.old ≡ 2048) × (length arrays.old ≡ 8192) × (length workers.old ≡ 4) }
    ensures { memory nodes.new cells.new trail.new arrays.new workers.new ≡ memory (replicate 256 0) (replicate 2048 0) (replicate 2048 0) (replicate 8192 0) (replicate 4 0) }
{
    nodes.fill(0);
    cells.fill(0);
    trail.fill(0);
    arrays.fill(0);
    workers.fill(0);
}

// The memory afresh: the query's variables and its first goal at the root, all workers there.
pub fn load(
    query: &[u32],
    nodes: &mut [u32],
    cells: &mut [u32],
    trail: &mut [u32],
    arrays: &mut [u32],
    workers: &mut [u32],
)
    requires { (length nodes.old ≡ 256) × (length cells.old ≡ 2048) × (length trail.old ≡ 2048) × (length arrays.old ≡ 8192) × (length workers.old ≡ 4) }
    ensures { memory nodes.new cells.new trail.new arrays.new workers.new ≡ loaded query.now }
{
    let variables = words::variables(words::word_at(query, 0));
    wipe(nodes, cells, trail, arrays, workers);
    words::put(nodes, 0, memory::node0(0, 0, 0, variables));
    words::put(nodes, 2, memory::node2(1, 0, 0, 0));
    memory::lay(cells, 0, 0, variables);
}

fn con_word(constant: u32) -> u32
    ensures { result ≡ word_of Con (2 ∷ constant ∷ []) }
{
    words::placed(words::CON_OP, Kind::Con, 0) + words::placed(constant, Kind::Con, 1)
}

fn var_word(number: u32) -> u32
    ensures { result ≡ word_of Var (1 ∷ 0 ∷ number ∷ []) }
{
    words::placed(words::VAR_OP, Kind::Var, 0) + words::placed(number, Kind::Var, 2)
}

// The numbers that an answer has named so far: as many as `count` says, at the front.
#[derive(Clone, Copy)]
struct Seen {
    numbers: [u32; 64],
    count: usize,
}

impl Seen {
    // The place of a number among them. One that was not seen before is added behind them.
    fn place(&mut self, number: u32) -> u32
        requires { self.old.count < 64 }
        ensures place { result ≡ place_of (take self.old.count self.old.numbers) number }
        ensures seen { take self.new.count self.new.numbers ≡ with_number (take self.old.count self.old.numbers) number }
        ensures count { self.new.count ≤ self.old.count + 1 }
    {
        let seen = &self.numbers[..self.count];
        if let Some(place) = seen.iter().position(|known| *known == number) {
            return place as u32;
        }
        let place = self.count;
        self.numbers[place] = number;
        self.count = place + 1;
        place as u32
    }
}

// One word of the answer, for a query variable.
#[tactic(auto, unfolding(model::specs::Moves::answer_word, model::specs::Moves::seen_with_found))]
fn read_word(array: &[u32], cells: &[u32], seen: &mut Seen, variable: u32) -> u32
    requires { seen.old.count < 64 }
    ensures word { result ≡ answer_word (take seen.old.count seen.old.numbers) (dereference 2048 array.now cells.now variable) }
    ensures seen { take seen.new.count seen.new.numbers ≡ seen_with_found (take seen.old.count seen.old.numbers) (dereference 2048 array.now cells.now variable) }
    ensures count { seen.new.count ≤ seen.old.count + 1 }
{
    match terms::dereference(array, cells, CellAddr(variable)) {
        Found::Constant(constant) => con_word(constant),
        Found::Unbound(number, _) => var_word(seen.place(number.0)),
    }
}

// The answer's words, at the front of the room.
fn read_words(array: &[u32], cells: &[u32], variables: u32, room: &mut [u32])
    requires { (variables < 64) × (variables ≤ length room.old) }
    ensures { room.new ≡ answer_from variables array.now cells.now 0 [] ++ drop variables room.old }
{
    let mut seen = Seen {
        numbers: [0; 64],
        count: 0,
    };
    for variable in 0..variables {
        let word = read_word(array, cells, &mut seen, variable);
        words::put(room, variable as usize, word);
    }
}

// Writes one image word for each query variable at the front of the room, and answers how many they are. The promise holds whatever nodes, trail and workers are: reading does not look at them.
pub fn read_answer(
    query: &[u32],
    cells: &[u32],
    arrays: &[u32],
    worker: u32,
    room: &mut [u32],
) -> usize
    requires { (length arrays.now ≡ 8192) × (worker < 4) × (variables (get_or query.now 0 0) ≤ length room.old) }
    ensures { (nodes trail workers : List ℕ) → let words = answer query.now (memory nodes cells.now trail arrays.now workers) worker in (room.new ≡ words ++ drop result room.old) × (result ≡ length words) }
{
    let variables = words::variables(words::word_at(query, 0));
    let base = 2048 * worker as usize;
    let end = base + 2048;
    read_words(&arrays[base..end], cells, variables, room);
    variables as usize
}
