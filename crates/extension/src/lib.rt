// Rule 7 of a step: a clause is taken, its head unified with the first goal, and a child made of it or everything undone. `array` is the worker's own part of the arrays.
#![tactic(auto)]

ghost use Rattle.std.specs.Prelude.{◌≡◌, ◌+◌, ◌*◌, ◌<◌, get_or};
ghost use Rattle.model.specs.Decoding.{clause_at};
ghost use Rattle.model.specs.Fields.{variables, goal_count};
ghost use Rattle.model.specs.Memory.{frame, goal_index, tried};
ghost use Rattle.model.specs.Goals.{child_goal};
ghost use Rattle.model.specs.Terms.{store};
ghost use Rattle.goals.specs.Calls.{IsCall};
ghost use Rattle.memory.specs.Views.{words_of, SameSlices};
ghost use Rattle.model.specs.Steps.{stepped, raised, grown, goal_fields, arrival, failed, succeeded, head_store, take_clause, goal_of, predicate_of};

use goals::{Call, Search};
use memory::View;
use model::{Clash, FirstGoal, Outcome};
use terms::{Child, Store};

// Node word 2 of a new node.
#[tactic(auto, unfolding(model::specs::Steps::goal_fields))]
fn goal_fields(first: FirstGoal) -> u32
    ensures { result ≡ goal_fields first }
{
    match first {
        None => memory::node2(0, 0, 0, 0),
        Some((slot, index)) => memory::node2(1, slot, index, 0),
    }
}

#[tactic(auto, unfolding(model::specs::Steps::arrival))]
fn arrival(first: FirstGoal) -> Outcome
    ensures { result ≡ arrival first }
{
    match first {
        None => Outcome::Answer,
        Some(_) => Outcome::Extended,
    }
}

// A child's four node words. The numbers are their fields, in the definition's order.
#[tactic(auto, unfolding(model::specs::Steps::grown))]
fn grow(
    nodes: &mut [u32],
    node: u32,
    child: u32,
    count: u32,
    own: u32,
    position: u32,
    first: FirstGoal,
)
    ensures { nodes.new ≡ grown nodes.old node child count own position first }
{
    let word0 = memory::node0(node, memory::depth(nodes, node) + 1, count, own);
    let word1 = memory::node1(
        memory::base(nodes, node) + memory::own_variables(nodes, node),
        position,
    );
    let word2 = goal_fields(first);
    let at = 4 * child as usize;
    words::put(nodes, at, word0);
    words::put(nodes, at + 1, word1);
    words::put(nodes, at + 2, word2);
    words::put(nodes, at + 3, 0);
}

// A clause's head with a node's first goal, over the child's cells. The slices come apart: of a lent view's own no store is made that the check follows.
#[tactic(auto, unfolding(model::specs::Steps::head_store))]
fn unify(
    search: Search<'_>,
    nodes: &[u32],
    array: &mut [u32],
    cells: &mut [u32],
    trail: &mut [u32],
    call: Call,
    child: u32,
    position: u32,
) -> Result<u32, Clash>
    requires { (child < 64) × (call.place ≡ goal_of search.image.now search.query.now nodes.now call.node) }
    ensures { store array.new cells.new trail.new result ≡ head_store search.entry.image.now search.entry.query.now nodes.now array.old cells.old trail.old call.node child call.predicate position }
{
    let slot = memory::frame(nodes, call.node);
    let words = search.clause_words(nodes, slot);
    let base = memory::base(nodes, call.node) + memory::own_variables(nodes, call.node);
    let head = position as usize;
    let own = words::variables(words::word_at(search.image, head));
    let count = words::arity(words::word_at(search.image, 1 + call.predicate as usize));
    memory::lay(cells, 32 * child as usize, base, own);
    let mut store = Store {
        array,
        cells,
        trail,
    };
    let made = Child { slot: child, base };
    let place = call.place + 1;
    terms::unify_head(
        search.image,
        words,
        &mut store,
        made,
        slot,
        head + 1,
        place,
        count,
    )
}

// The head is tried on the view: the nodes and the workers stay.
fn try_head(
    search: Search<'_>,
    view: &mut View<'_>,
    call: Call,
    child: u32,
    position: u32,
) -> Result<u32, Clash>
    requires { (child < 64) × (call.place ≡ goal_of search.image.now search.query.now view.old.nodes.now call.node) }
    ensures did { store view.new.array.now view.new.cells.now view.new.trail.now result ≡ head_store search.entry.image.now search.entry.query.now view.old.nodes.now view.old.array.now view.old.cells.now view.old.trail.now call.node child call.predicate position }
    ensures rest { (view.new.nodes.now ≡ view.old.nodes.now) × (view.new.workers.now ≡ view.old.workers.now) }
    ensures lent { SameSlices view.old view.new }
{
    let nodes = &mut *view.nodes;
    let array = &mut *view.array;
    let cells = &mut *view.cells;
    let trail = &mut *view.trail;
    unify(search, nodes, array, cells, trail, call, child, position)
}

// A head that failed: what was bound and laid is taken out again, and the count of clauses tried rises.
#[tactic(auto, unfolding(model::specs::Steps::failed))]
fn fail(search: Search<'_>, view: &mut View<'_>, call: Call, child: u32, position: u32, count: u32)
    requires { count < 65536 }
    ensures did { words_of view.new ≡ failed search.entry.image.now (words_of view.old) call.node child position count }
    ensures lent { SameSlices view.old view.new }
{
    let nodes = &mut *view.nodes;
    let array = &mut *view.array;
    let cells = &mut *view.cells;
    let trail = &mut *view.trail;
    let own = words::variables(words::word_at(search.image, position as usize));
    let first = 32 * child as usize;
    memory::undo(array, trail, first, count);
    memory::clear(cells, first, own);
    memory::clear(trail, first, 2 * count);
    memory::raise(nodes, call.node);
}

// A head that unified: the child's node, and the worker goes there.
#[tactic(auto, unfolding(model::specs::Steps::succeeded))]
fn succeed(
    search: Search<'_>,
    view: &mut View<'_>,
    worker: u32,
    call: Call,
    child: u32,
    position: u32,
    count: u32,
) -> Outcome
    ensures did { stepped result (words_of view.new) ≡ succeeded search.entry.image.now (words_of view.old) worker call.node child position count (child_goal search.entry.image.now search.entry.query.now view.old.nodes.now child (goal_count (get_or search.entry.image.now position 0)) (frame view.old.nodes.now call.node) (goal_index view.old.nodes.now call.node)) }
    ensures lent { SameSlices view.old view.new }
{
    let nodes = &mut *view.nodes;
    let workers = &mut *view.workers;
    let clause = words::word_at(search.image, position as usize);
    let first = search.child_goal(
        nodes,
        child,
        words::goal_count(clause),
        memory::frame(nodes, call.node),
        memory::goal_index(nodes, call.node),
    );
    memory::raise(nodes, call.node);
    grow(
        nodes,
        call.node,
        child,
        count,
        words::variables(clause),
        position,
        first,
    );
    words::put(workers, worker as usize, child);
    arrival(first)
}

// The clause at a position is taken, for a child in a free slot; where the first goal and the clause stand is known.
pub fn take_clause(
    search: Search<'_>,
    view: &mut View<'_>,
    worker: u32,
    call: Call,
    child: u32,
    position: u32,
) -> Outcome
    requires { (child < 64) × IsCall search.image.now search.query.now view.old.nodes.now call × (position ≡ clause_at search.image.now call.predicate (tried view.old.nodes.now call.node)) }
    ensures did { stepped result (words_of view.new) ≡ take_clause search.entry.image.now search.entry.query.now (words_of view.old) worker call.node child }
    ensures lent { SameSlices view.old view.new }
{
    match try_head(search, view, call, child, position) {
        Err(Clash(count)) => {
            fail(search, view, call, child, position, count);
            Outcome::Tried
        }
        Ok(count) => succeed(search, view, worker, call, child, position, count),
    }
}
