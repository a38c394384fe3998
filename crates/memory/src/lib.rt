// The shared memory in words: document 01, "Shared memory". Reads past the end give 0, stores past the end do nothing.
#![tactic(auto)]

ghost use Rattle.std.specs.Prelude.{◌≡◌, List, [], ◌∷◌, ℕ, ◌+◌, ◌*◌, ◌≤◌, ◌<◌, length, get_or, ◌&&◌, not, eqb, unwrap_or, IfSome};
ghost use Rattle.model.specs.declared.Kind.TheVariants.{Node0, Node1, Node2, Value};
ghost use Rattle.model.specs.Fields.{widths_of, field};
ghost use Rattle.model.specs.Memory.{node_word, used, parent, depth, entries, own_variables, base, clause_position, has_goal, frame, goal_index, tried, word_of, cleared};
ghost use Rattle.model.specs.Steps.{child_from, another_from, free_from, undone, laid, raised};
ghost use Rattle.model.specs.Moves.{installed, climbed, leg};
ghost use Rattle.memory.specs.Wiped.{Wiped};

mod view;

use model::Kind;
pub use view::View;

// A field of word `part` of a slot's node.
pub fn node_field(nodes: &[u32], slot: u32, part: usize, kind: Kind, i: usize) -> u32
    requires { part < 4 }
    ensures { result ≡ field (widths_of kind) (node_word nodes.now slot part) i }
{
    let at = 4 * slot as usize;
    words::read(words::word_at(nodes, at + part), kind, i)
}

pub fn used(nodes: &[u32], slot: u32) -> u32
    ensures { result ≡ used nodes.now slot }
{
    node_field(nodes, slot, 0, Kind::Node0, 0)
}

pub fn parent(nodes: &[u32], slot: u32) -> u32
    ensures { result ≡ parent nodes.now slot }
{
    node_field(nodes, slot, 0, Kind::Node0, 1)
}

pub fn depth(nodes: &[u32], slot: u32) -> u32
    ensures { result ≡ depth nodes.now slot }
{
    node_field(nodes, slot, 0, Kind::Node0, 2)
}

pub fn entries(nodes: &[u32], slot: u32) -> u32
    ensures { result ≡ entries nodes.now slot }
{
    node_field(nodes, slot, 0, Kind::Node0, 3)
}

pub fn own_variables(nodes: &[u32], slot: u32) -> u32
    ensures { result ≡ own_variables nodes.now slot }
{
    node_field(nodes, slot, 0, Kind::Node0, 4)
}

pub fn base(nodes: &[u32], slot: u32) -> u32
    ensures { result ≡ base nodes.now slot }
{
    node_field(nodes, slot, 1, Kind::Node1, 0)
}

pub fn clause_position(nodes: &[u32], slot: u32) -> u32
    ensures { result ≡ clause_position nodes.now slot }
{
    node_field(nodes, slot, 1, Kind::Node1, 2)
}

pub fn has_goal(nodes: &[u32], slot: u32) -> u32
    ensures { result ≡ has_goal nodes.now slot }
{
    node_field(nodes, slot, 2, Kind::Node2, 0)
}

pub fn frame(nodes: &[u32], slot: u32) -> u32
    ensures { result ≡ frame nodes.now slot }
{
    node_field(nodes, slot, 2, Kind::Node2, 1)
}

pub fn goal_index(nodes: &[u32], slot: u32) -> u32
    ensures { result ≡ goal_index nodes.now slot }
{
    node_field(nodes, slot, 2, Kind::Node2, 2)
}

pub fn tried(nodes: &[u32], slot: u32) -> u32
    ensures { result ≡ tried nodes.now slot }
{
    node_field(nodes, slot, 2, Kind::Node2, 3)
}

// A value: tag and value.
#[tactic(auto, unfolding(model::specs::Memory::word_of, model::specs::Memory::cut_to, model::specs::Fields::join, model::specs::Fields::widths_of, model::specs::Fields::total, model::specs::Fields::below))]
pub fn value_word(tag: u32, value: u32) -> u32
    ensures { result ≡ word_of Value (tag ∷ value ∷ []) }
{
    words::placed(tag, Kind::Value, 0) + words::placed(value, Kind::Value, 1)
}

// Node word 0 of a used slot.
#[tactic(auto, unfolding(model::specs::Memory::word_of, model::specs::Memory::cut_to, model::specs::Fields::join, model::specs::Fields::widths_of, model::specs::Fields::total, model::specs::Fields::below))]
pub fn node0(parent: u32, depth: u32, entries: u32, variables: u32) -> u32
    ensures { result ≡ word_of Node0 (1 ∷ parent ∷ depth ∷ entries ∷ variables ∷ 0 ∷ []) }
{
    let above = words::placed(1, Kind::Node0, 0)
        + words::placed(parent, Kind::Node0, 1)
        + words::placed(depth, Kind::Node0, 2);
    above + words::placed(entries, Kind::Node0, 3) + words::placed(variables, Kind::Node0, 4)
}

#[tactic(auto, unfolding(model::specs::Memory::word_of, model::specs::Memory::cut_to, model::specs::Fields::join, model::specs::Fields::widths_of, model::specs::Fields::total, model::specs::Fields::below))]
pub fn node1(base: u32, position: u32) -> u32
    ensures { result ≡ word_of Node1 (base ∷ 0 ∷ position ∷ []) }
{
    words::placed(base, Kind::Node1, 0) + words::placed(position, Kind::Node1, 2)
}

#[tactic(auto, unfolding(model::specs::Memory::word_of, model::specs::Memory::cut_to, model::specs::Fields::join, model::specs::Fields::widths_of, model::specs::Fields::total, model::specs::Fields::below))]
pub fn node2(goal: u32, frame: u32, index: u32, tried: u32) -> u32
    ensures { result ≡ word_of Node2 (goal ∷ frame ∷ index ∷ tried ∷ 0 ∷ []) }
{
    let above = words::placed(goal, Kind::Node2, 0) + words::placed(frame, Kind::Node2, 1);
    above + words::placed(index, Kind::Node2, 2) + words::placed(tried, Kind::Node2, 3)
}

// So many words from a place on are set to 0.
pub fn clear(words: &mut [u32], start: usize, count: u32)
    requires { start < 1099511627776 }
    ensures { words.new ≡ cleared count start words.old }
{
    let end = words.len().min(start + count as usize);
    if start < end {
        words[start..end].fill(0);
    }
}

// Every word is set to 0, whatever stood there.
pub fn wipe(words: &mut [u32])
    ensures { Wiped words.new }
{
    words.fill(0);
}

// So many cells from a place on, each the VNO of its number, from one on.
pub fn lay(cells: &mut [u32], start: usize, first: u32, count: u32)
    requires { (start < 1099511627776) × (first + count < 4294967296) }
    ensures { cells.new ≡ laid count start first cells.old }
{
    for k in 0..count {
        words::put(
            cells,
            start + k as usize,
            value_word(words::VNO_TAG, first + k),
        );
    }
}

// So many trail entries from a trail word on are taken out of an array.
pub fn undo(array: &mut [u32], trail: &[u32], start: usize, count: u32)
    requires { start < 1099511627776 }
    ensures { array.new ≡ undone count trail.now start array.old }
{
    for entry in 0..count as usize {
        let at = start + 2 * entry;
        words::put(array, words::word_at(trail, at) as usize, 0);
    }
}

// So many trail entries from a trail word on are put into an array.
pub fn install(array: &mut [u32], trail: &[u32], start: usize, count: u32)
    requires { start < 1099511627776 }
    ensures { array.new ≡ installed count trail.now start array.old }
{
    for entry in 0..count as usize {
        let at = start + 2 * entry;
        let number = words::word_at(trail, at) as usize;
        words::put(array, number, words::word_at(trail, at + 1));
    }
}

// What a walk up does with the trail entries of each slot that it passes: a number of them, from a trail word on, change an array.
pub trait Leg {
    ghost change: { ℕ → List ℕ → ℕ → List ℕ → List ℕ };

    fn apply(array: &mut [u32], trail: &[u32], start: usize, count: u32)
        requires { start < 1099511627776 }
        ensures { array.new ≡ change count trail.now start array.old };
}

// They are taken out.
pub struct TakeOut;

impl Leg for TakeOut {
    ghost change = { undone };

    fn apply(array: &mut [u32], trail: &[u32], start: usize, count: u32) {
        undo(array, trail, start, count);
    }
}

// They are put in.
pub struct PutIn;

impl Leg for PutIn {
    ghost change = { installed };

    fn apply(array: &mut [u32], trail: &[u32], start: usize, count: u32) {
        install(array, trail, start, count);
    }
}

// A walk up from a slot to an ancestor, over at most so many slots, each of whose trail entries the leg takes out or puts in. The entries passed are counted on.
pub fn climb<L: Leg>(
    array: &mut [u32],
    nodes: &[u32],
    trail: &[u32],
    ancestor: u32,
    start: u32,
    most: u32,
    passed: u32,
) -> u32
    requires { passed + 16 * most < 4294967296 }
    ensures { leg array.new result ≡ climbed L.change most nodes.now trail.now ancestor start array.old passed }
{
    let mut slot = start;
    let mut count = passed;
    for _ in 0..most {
        if slot == ancestor {
            return count;
        }
        let here = entries(nodes, slot);
        L::apply(array, trail, 32 * slot as usize, here);
        count += here;
        slot = parent(nodes, slot);
    }
    count
}

// Has a node a child: a used slot other than the root whose parent it is.
pub fn has_child(nodes: &[u32], node: u32) -> bool
    ensures { result ≡ child_from 63 nodes.now node 1 }
{
    (1..64).any(|slot| is_child(nodes, node, slot))
}

fn is_child(nodes: &[u32], node: u32, slot: u32) -> bool
    ensures { result ≡ (eqb (used nodes.now slot) 1 && eqb (parent nodes.now slot) node) }
{
    used(nodes, slot) == 1 && parent(nodes, slot) == node
}

// Does another worker stand at a node.
pub fn another_there(workers: &[u32], worker: u32, node: u32) -> bool
    ensures { result ≡ another_from 4 workers.now worker node 0 }
{
    (0..4).any(|other| is_there(workers, worker, node, other))
}

fn is_there(workers: &[u32], worker: u32, node: u32, other: u32) -> bool
    ensures { result ≡ (not (eqb other worker) && eqb (get_or workers.now other 0) node) }
{
    other != worker && words::word_at(workers, other as usize) == node
}

// The lowest free slot, where not all are used.
pub fn lowest_free(nodes: &[u32]) -> Option<u32>
    ensures free { unwrap_or result 64 ≡ free_from 64 nodes.now 0 }
    ensures slot { IfSome result (λ slot. slot < 64) }
{
    (0..64).find(|slot| used(nodes, *slot) != 1)
}

// A node's count of clauses tried rises.
#[tactic(auto, unfolding(model::specs::Steps::raised))]
pub fn raise(nodes: &mut [u32], node: u32)
    ensures { nodes.new ≡ raised nodes.old node }
{
    let word = node2(
        has_goal(nodes, node),
        frame(nodes, node),
        goal_index(nodes, node),
        tried(nodes, node) + 1,
    );
    let at = 4 * node as usize;
    words::put(nodes, at + 2, word);
}
