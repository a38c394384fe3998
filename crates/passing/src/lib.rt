// Clauses whose heads are sure to fail are passed over in one loop: they have no variables and differ from the goal in a constant. Document 01, rule 7, "Failure".
#![tactic(auto)]

ghost use Rattle.std.specs.Prelude.{◌≡◌, true, ◌+◌, ◌*◌, ◌≤◌, ◌<◌, min};
ghost use Rattle.model.specs.Image.{predicate_word};
ghost use Rattle.model.specs.Fields.{clause_count};
ghost use Rattle.model.specs.Decoding.{clause_from};
ghost use Rattle.model.specs.Memory.{tried};
ghost use Rattle.passing.specs.Clash.{compare, clashes, fails_plainly};
ghost use Rattle.passing.specs.Passing.{passing, pass_over, blank, skipped};

use goals::{Call, Search};
use model::Found;

// What a head's argument and a goal's come to while nothing is bound: they differ, they agree or one takes the other, or it is not known.
#[derive(Clone, Copy)]
enum Compared {
    Differ,
    Agree,
    Unsure,
}

// How many clauses were passed over, and where the next one stands.
#[derive(Clone, Copy)]
pub struct Stretch {
    pub count: u32,
    pub position: u32,
}

// A goal as it is tried against the heads of its predicate's clauses: the image, and the words that the goal stands in; the worker's array and the cells;
// the slot whose clause the goal is of, the first of the child's variables, the goal's place and its arity.
// What is searched by and what the worker has are lent for a time each: with one lifetime for both, the check would not know the worker's words afterwards.
#[derive(Clone, Copy)]
struct Attempt<'s, 'v> {
    image: &'s [u32],
    words: &'s [u32],
    array: &'v [u32],
    cells: &'v [u32],
    slot: u32,
    child_base: u32,
    place: usize,
    arity: u32,
    ghost slot_small: { slot < 65536 },
    ghost place_small: { place < 1048576 },
    ghost arity_small: { arity < 65536 },
}

impl<'s, 'v> Attempt<'s, 'v> {
    #[tactic(auto, unfolding(crate::specs::Clash::compare, crate::specs::Clash::compared_with))]
    fn compare(self, head: u32, goal: u32) -> Compared
        ensures { result ≡ compare self.entry.child_base self.entry.array.now self.entry.cells.now self.entry.slot head goal }
    {
        if words::op(head) == words::VAR_OP {
            return Compared::Unsure;
        }
        match terms::argument_of(self.array, self.cells, self.slot, goal) {
            Found::Constant(theirs) if words::constant(head) == theirs => Compared::Agree,
            Found::Constant(_) => Compared::Differ,
            Found::Unbound(number, _) if number.0 < self.child_base => Compared::Agree,
            Found::Unbound(_, _) => Compared::Unsure,
        }
    }

    // Whether a head's arguments, from a place on, and the goal's differ in a constant.
    // This and the next stand in the loop over clauses itself: a call for each clause would copy the attempt, which takes as long as the look.
    #[inline(always)]
    #[tactic(auto, using(crate::proofs::PassLaws::clashing))]
    fn clashes(self, head: usize) -> bool
        requires { head < 1099511627776 }
        ensures { result ≡ clashes self.entry.arity self.entry.image.now self.entry.words.now self.entry.array.now self.entry.cells.now self.entry.slot self.entry.child_base head (self.entry.place + 1) }
    {
        let goal = self.place + 1;
        for k in 0..self.arity as usize {
            let ours = words::word_at(self.image, head + k);
            let theirs = words::word_at(self.words, goal + k);
            match self.compare(ours, theirs) {
                Compared::Differ => return true,
                Compared::Agree => {}
                Compared::Unsure => return false,
            }
        }
        false
    }

    // Whether the clause at a position is sure to fail.
    #[inline(always)]
    #[tactic(auto, unfolding(crate::specs::Clash::fails_plainly))]
    fn fails_plainly(self, position: u32) -> bool
        ensures { result ≡ fails_plainly self.entry.arity self.entry.image.now self.entry.words.now self.entry.array.now self.entry.cells.now self.entry.slot self.entry.child_base position self.entry.place }
    {
        let at = position as usize;
        words::variables(words::word_at(self.image, at)) == 0 && self.clashes(at + 1)
    }

    // At most so many clauses from a position on, as long as each is sure to fail; for each the node's tried count rises. Answers how many, and the place behind them.
    #[tactic(auto, using(crate::proofs::PassLaws::passing_over))]
    fn pass_over(self, nodes: &mut [u32], node: u32, start: u32, most: u32) -> Stretch
        requires { (most < 1024) × (start < 134217728) }
        ensures { (passing nodes.new result.count ≡ pass_over self.entry.arity node self.entry.image.now self.entry.words.now self.entry.array.now self.entry.cells.now self.entry.slot self.entry.child_base self.entry.place most 0 nodes.old start) × (result.position ≡ clause_from self.entry.image.now start result.count) }
    {
        let mut position = start;
        for count in 0..most {
            if !self.fails_plainly(position) {
                return Stretch { count, position };
            }
            memory::raise(nodes, node);
            position += words::clause_length(words::word_at(self.image, position as usize));
        }
        Stretch {
            count: most,
            position,
        }
    }
}

// Whether so many words from a place on stand in the slice, and are 0.
#[tactic(auto, unfolding(crate::specs::Passing::blank))]
fn blank(words: &[u32], start: usize, count: u32) -> bool
    requires { start < 1099511627776 }
    ensures { result ≡ blank count words.now start }
{
    start + count as usize <= words.len() && bindings::zeros(words, start, count)
}

// Passes over clauses of a live node's predicate from a position on, at most so many, if the next is sure to fail and the child's trail is still empty. Answers how many, and the place behind them. Only the nodes are written, so no view is lent.
#[tactic(auto, using(crate::proofs::FieldRules::field_bounds, crate::proofs::SkipLaws::idle), unfolding(crate::specs::Passing::skipped, model::specs::Decoding::clause_from))]
pub fn skip(
    search: Search<'_>,
    nodes: &mut [u32],
    cells: &[u32],
    trail: &[u32],
    array: &[u32],
    call: Call,
    child: u32,
    position: u32,
    most: u32,
) -> Stretch
    requires { (call.place < 1048576) × (position < 134217728) × (tried nodes.old call.node ≤ clause_count (predicate_word search.image.now call.predicate)) }
    ensures { (passing nodes.new result.count ≡ skipped search.entry.image.now search.entry.query.now nodes.old cells.now trail.now array.now call.node child call.predicate call.place position most) × (result.position ≡ clause_from search.entry.image.now position result.count) }
{
    let none = Stretch { count: 0, position };
    if most == 0 {
        return none;
    }
    let node = call.node;
    let slot = memory::frame(nodes, node);
    let word = words::word_at(search.image, 1 + call.predicate as usize);
    let arity = words::arity(word);
    let attempt = Attempt {
        image: search.image,
        words: search.clause_words(nodes, slot),
        array,
        cells,
        slot,
        child_base: memory::base(nodes, node) + memory::own_variables(nodes, node),
        place: call.place,
        arity,
    };
    if !attempt.fails_plainly(position) || !blank(trail, 32 * child as usize, 2 * arity) {
        return none;
    }
    let untried = words::clause_count(word) - memory::tried(nodes, node);
    attempt.pass_over(nodes, node, position, most.min(untried))
}
