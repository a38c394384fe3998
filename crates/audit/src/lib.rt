// Condition 21: document 01, "Refused calls". Each test is a function of the words that it reads, and answers as the definition in `model` does.
#![tactic(auto)]

ghost use Rattle.std.specs.Prelude.{◌≡◌, ◌<◌, take, drop};
ghost use Rattle.model.specs.Fields.{variables};
ghost use Rattle.model.specs.Memory.{memory, array_of};
ghost use Rattle.model.specs.Damage.{each, zero_fields, free_zero, among_clauses, root_sound, called_word, linked, clause_of, rule_goal, without_goal, with_goal, goal_sound, base_sound, node_sound, slot_linked, slot_sound, path_array, same_words, worker_sound, sound};

use bindings::Tree;
use goals::Search;
use memory::PutIn;
use model::{FirstGoal, Kind};

// A slot's zero fields are 0.
#[tactic(auto, unfolding(model::specs::Damage::zero_fields))]
fn zero_fields(nodes: &[u32], slot: u32) -> bool
    ensures { result ≡ zero_fields nodes.now slot }
{
    let at = 4 * slot as usize;
    memory::node_field(nodes, slot, 0, Kind::Node0, 5) == 0
        && memory::node_field(nodes, slot, 1, Kind::Node1, 1) == 0
        && memory::node_field(nodes, slot, 2, Kind::Node2, 4) == 0
        && words::word_at(nodes, at + 3) == 0
}

// A free slot is zero throughout.
#[tactic(auto, unfolding(model::specs::Damage::free_zero))]
fn free_zero(tree: Tree<'_>, slot: u32) -> bool
    ensures { result ≡ free_zero tree.entry.nodes.now tree.entry.cells.now tree.entry.trail.now slot }
{
    let first = 32 * slot as usize;
    bindings::zeros(tree.nodes, 4 * slot as usize, 4)
        && bindings::zeros(tree.cells, first, 32)
        && bindings::zeros(tree.trail, first, 32)
}

// A position is that of one of so many clauses, from one on.
fn among_clauses(image: &[u32], start: usize, position: u32, count: u32) -> bool
    requires { start < 1099511627776 }
    ensures { result ≡ among_clauses count image.now start position }
{
    let mut at = start;
    for _ in 0..count {
        if at == position as usize {
            return true;
        }
        at += words::clause_length(words::word_at(image, at)) as usize;
    }
    false
}

// The root is used, and its links are 0.
#[tactic(auto, unfolding(model::specs::Damage::root_sound))]
fn root_sound(nodes: &[u32]) -> bool
    ensures { result ≡ root_sound nodes.now }
{
    memory::used(nodes, 0) == 1
        && memory::parent(nodes, 0) == 0
        && memory::depth(nodes, 0) == 0
        && memory::clause_position(nodes, 0) == 0
        && memory::base(nodes, 0) == 0
}

// The predicate word of a node's first goal.
fn called_word(search: Search<'_>, nodes: &[u32], node: u32) -> u32
    ensures { result ≡ called_word search.entry.image.now search.entry.query.now nodes.now node }
{
    let predicate = search.predicate_of(nodes, node) as usize;
    words::word_at(search.image, 1 + predicate)
}

// A slot's parent is used, one less deep, and has tried the slot's clause on its first goal.
#[tactic(auto, unfolding(model::specs::Damage::linked))]
fn linked(search: Search<'_>, nodes: &[u32], slot: u32) -> bool
    ensures { result ≡ linked search.entry.image.now search.entry.query.now nodes.now slot }
{
    let parent = memory::parent(nodes, slot);
    let first = words::first_clause(called_word(search, nodes, parent)) as usize;
    let position = memory::clause_position(nodes, slot);
    memory::used(nodes, parent) == 1
        && memory::depth(nodes, slot) == memory::depth(nodes, parent) + 1
        && memory::has_goal(nodes, parent) == 1
        && among_clauses(search.image, first, position, memory::tried(nodes, parent))
}

// A slot without a goal: its goal's fields are 0.
#[tactic(auto, unfolding(model::specs::Damage::without_goal))]
fn without_goal(nodes: &[u32], slot: u32) -> bool
    ensures { result ≡ without_goal nodes.now slot }
{
    memory::has_goal(nodes, slot) == 0
        && memory::frame(nodes, slot) == 0
        && memory::goal_index(nodes, slot) == 0
        && memory::tried(nodes, slot) == 0
}

// A slot's first goal stands at an index of a slot's clause, and no more clauses are tried than there are.
#[tactic(auto, unfolding(model::specs::Damage::with_goal))]
fn with_goal(search: Search<'_>, nodes: &[u32], slot: u32, holder: u32, index: u32) -> bool
    ensures { result ≡ with_goal search.entry.image.now search.entry.query.now nodes.now slot holder index }
{
    memory::has_goal(nodes, slot) == 1
        && memory::frame(nodes, slot) == holder
        && memory::goal_index(nodes, slot) == index
        && memory::tried(nodes, slot) <= words::clause_count(called_word(search, nodes, slot))
}

// A slot's goal fields hold a first goal, and the clauses tried go with it.
#[tactic(auto, unfolding(model::specs::Damage::goal_sound))]
fn goal_sound(search: Search<'_>, nodes: &[u32], slot: u32, goal: FirstGoal) -> bool
    ensures { result ≡ goal_sound search.entry.image.now search.entry.query.now nodes.now slot goal }
{
    match goal {
        None => without_goal(nodes, slot),
        Some((holder, index)) => with_goal(search, nodes, slot, holder, index),
    }
}

// The first goal of a slot by the rules.
#[tactic(auto, unfolding(model::specs::Damage::rule_goal))]
fn rule_goal(search: Search<'_>, nodes: &[u32], slot: u32) -> FirstGoal
    ensures { result ≡ rule_goal search.entry.image.now search.entry.query.now nodes.now slot }
{
    if slot == 0 {
        return Some((0, 0));
    }
    let parent = memory::parent(nodes, slot);
    search.child_goal(
        nodes,
        slot,
        search.goals_of(nodes, slot),
        memory::frame(nodes, parent),
        memory::goal_index(nodes, parent),
    )
}

// A slot's base is its parent's base plus its parent's variables.
#[tactic(auto, unfolding(model::specs::Damage::base_sound))]
fn base_sound(nodes: &[u32], slot: u32) -> bool
    ensures { result ≡ base_sound nodes.now slot }
{
    let parent = memory::parent(nodes, slot);
    slot == 0
        || memory::base(nodes, slot)
            == memory::base(nodes, parent) + memory::own_variables(nodes, parent)
}

// How many variables a slot's clause has.
fn clause_variables(search: Search<'_>, nodes: &[u32], slot: u32) -> u32
    ensures { result ≡ variables (clause_of search.entry.image.now search.entry.query.now nodes.now slot) }
{
    let at = memory::clause_position(nodes, slot) as usize;
    words::variables(words::word_at(search.clause_words(nodes, slot), at))
}

// A slot's variables, base and first goal follow the rules.
#[tactic(auto, unfolding(model::specs::Damage::node_sound))]
fn node_sound(search: Search<'_>, nodes: &[u32], slot: u32) -> bool
    ensures { result ≡ node_sound search.entry.image.now search.entry.query.now nodes.now slot }
{
    memory::own_variables(nodes, slot) == clause_variables(search, nodes, slot)
        && base_sound(nodes, slot)
        && goal_sound(search, nodes, slot, rule_goal(search, nodes, slot))
}

// A slot's zero fields, and its links if it is used; zero throughout if not.
#[tactic(auto, unfolding(model::specs::Damage::slot_linked))]
fn slot_linked(search: Search<'_>, tree: Tree<'_>, slot: u32) -> bool
    ensures { result ≡ slot_linked search.entry.image.now search.entry.query.now tree.entry.nodes.now tree.entry.cells.now tree.entry.trail.now slot }
{
    if !zero_fields(tree.nodes, slot) {
        return false;
    }
    if memory::used(tree.nodes, slot) != 1 {
        return free_zero(tree, slot);
    }
    slot == 0 || linked(search, tree.nodes, slot)
}

// A used slot's clause, cells and trail.
#[tactic(auto, unfolding(model::specs::Damage::slot_sound))]
fn slot_sound(search: Search<'_>, tree: Tree<'_>, slot: u32) -> bool
    ensures { result ≡ slot_sound search.entry.image.now search.entry.query.now tree.entry.nodes.now tree.entry.cells.now tree.entry.trail.now slot }
{
    memory::used(tree.nodes, slot) != 1
        || (node_sound(search, tree.nodes, slot)
            && tree.cells_sound(slot)
            && tree.trail_sound(slot))
}

// A worker's array holds the trail entries from a slot up to the root, and nothing else.
fn array_sound(tree: Tree<'_>, arrays: &[u32], worker: u32, slot: u32) -> bool
    ensures { result ≡ same_words 2048 (array_of arrays.now worker) (path_array tree.entry.nodes.now tree.entry.trail.now slot) 0 }
{
    let mut array = [0u32; 2048];
    let depth = memory::depth(tree.nodes, slot);
    memory::climb::<PutIn>(&mut array, tree.nodes, tree.trail, 0, slot, depth, 0);
    let start = arrays.len().min(2048 * worker as usize);
    let there = (arrays.len() - start).min(2048);
    arrays[start..start + there] == array[..there]
        && bindings::zeros(&array, there, 2048 - there as u32)
}

// A worker's slot is used, and its array is that of its slot.
#[tactic(auto, unfolding(model::specs::Damage::worker_sound))]
fn worker_sound(tree: Tree<'_>, arrays: &[u32], workers: &[u32], worker: u32) -> bool
    ensures { result ≡ worker_sound tree.entry.nodes.now tree.entry.trail.now arrays.now workers.now worker }
{
    let slot = words::word_at(workers, worker as usize);
    slot < 64 && memory::used(tree.nodes, slot) == 1 && array_sound(tree, arrays, worker, slot)
}

// Is the memory sound for an image and a query: 21 is given exactly when it is not.
pub fn sound(search: Search<'_>, tree: Tree<'_>, arrays: &[u32], workers: &[u32]) -> bool
    ensures { result ≡ sound search.entry.image.now search.entry.query.now (memory tree.entry.nodes.now tree.entry.cells.now tree.entry.trail.now arrays.now workers.now) }
{
    root_sound(tree.nodes)
        && (0..64).all(|slot| slot_linked(search, tree, slot))
        && (0..64).all(|slot| slot_sound(search, tree, slot))
        && (0..4).all(|worker| worker_sound(tree, arrays, workers, worker))
}
