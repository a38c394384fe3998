// Rules 1 to 4 of a step: what a worker does at a dead node. Nothing is judged here: see the calls.
#![tactic(auto)]

ghost use Rattle.std.specs.Prelude.{◌≡◌, eqb};
ghost use Rattle.memory.specs.Views.{words_of, SameSlices};
ghost use Rattle.model.specs.Steps.{stepped, another_there, left_for, freed, dead_rule};

use memory::View;
use model::Outcome;

// Going to the parent takes a node's trailed words out of the worker's array.
#[tactic(auto, unfolding(model::specs::Steps::left_for))]
fn leave(view: &mut View<'_>, worker: u32, node: u32)
    ensures did { words_of view.new ≡ left_for (words_of view.old) worker node }
    ensures lent { SameSlices view.old view.new }
{
    let nodes = &mut *view.nodes;
    let trail = &mut *view.trail;
    let array = &mut *view.array;
    let workers = &mut *view.workers;
    memory::undo(
        array,
        trail,
        32 * node as usize,
        memory::entries(nodes, node),
    );
    words::put(workers, worker as usize, memory::parent(nodes, node));
}

// A freed slot is zero throughout.
#[tactic(auto, unfolding(model::specs::Steps::freed))]
fn free(view: &mut View<'_>, slot: u32)
    ensures did { words_of view.new ≡ freed (words_of view.old) slot }
    ensures lent { SameSlices view.old view.new }
{
    memory::clear(view.nodes, 4 * slot as usize, 4);
    memory::clear(view.cells, 32 * slot as usize, 32);
    memory::clear(view.trail, 32 * slot as usize, 32);
}

// Rules 1 to 4, at a dead node, of which it is known whether it has a child.
#[tactic(auto, unfolding(model::specs::Steps::dead_rule))]
pub fn dead_step(view: &mut View<'_>, worker: u32, node: u32, child: bool) -> Outcome
    ensures did { stepped result (words_of view.new) ≡ dead_rule child (eqb node 0) (another_there view.old.workers.now worker node) (words_of view.old) worker node }
    ensures lent { SameSlices view.old view.new }
{
    if child {
        return Outcome::Wait;
    }
    if node == 0 {
        return Outcome::Finished;
    }
    let workers = &mut *view.workers;
    let another = memory::another_there(workers, worker, node);
    leave(view, worker, node);
    if another {
        return Outcome::Left;
    }
    free(view, node);
    Outcome::Back
}
