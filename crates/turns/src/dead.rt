// Rules 1 to 4 of a step: what a worker does at a dead node, whose children are counted in a table.
ghost use Rattle.std.specs.Prelude.{◌≡◌, eqb};
ghost use Rattle.children.specs.Children.{Counted};
ghost use Rattle.memory.specs.Views.{words_of, SameSlices};
ghost use Rattle.model.specs.Steps.{stepped, has_child, another_there, dead_rule};

use memory::View;
use model::Outcome;

pub fn dead_advance(view: &mut View<'_>, children: &mut [u32], worker: u32, node: u32) -> Outcome
    requires { Counted view.old.nodes.now children.old }
    ensures did { stepped result (words_of view.new) ≡ dead_rule (has_child view.old.nodes.now node) (eqb node 0) (another_there view.old.workers.now worker node) (words_of view.old) worker node }
    ensures counted { Counted view.new.nodes.now children.new }
    ensures lent { SameSlices view.old view.new }
{
    let nodes = &mut *view.nodes;
    let before = words::word_at(nodes, 4 * node as usize);
    let child = children::has_child(nodes, children, node);
    let outcome = retreat::dead_step(view, worker, node, child);
    let nodes = &mut *view.nodes;
    children::follow(nodes, children, node, before);
    outcome
}
