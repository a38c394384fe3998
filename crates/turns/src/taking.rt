// Rule 7 of a step: the next clause is taken, and clauses that are sure to fail in one go. Where the clause after it stands is kept for the next turn.
ghost use Rattle.std.specs.Prelude.{◌≡◌, true, false, ◌&&◌, ◌≤◌, ◌<◌, eqb, get_or};
ghost use Rattle.model.specs.Decoding.{clause_at};
ghost use Rattle.model.specs.Fields.{sequential};
ghost use Rattle.model.specs.Image.{predicate_word};
ghost use Rattle.model.specs.Memory.{tried};
ghost use Rattle.children.specs.Children.{Counted};
ghost use Rattle.goals.specs.Calls.{IsCall};
ghost use Rattle.memory.specs.Views.{words_of, SameSlices};
ghost use Rattle.turns.specs.Hand.{HandTrue, SameTables};
ghost use Rattle.turns.specs.Progress.{Progressed};
ghost use Rattle.model.specs.Steps.{stepped, live, has_child, lowest_free, take_clause};

use crate::{Hand, Progress};
use goals::{Call, Search};
use memory::View;
use model::Outcome;

// The clause at a position is taken, and the table of children follows the child's slot.
fn take_one(
    search: Search<'_>,
    view: &mut View<'_>,
    children: &mut [u32],
    worker: u32,
    call: Call,
    child: u32,
    position: u32,
) -> Outcome
    requires clause_found { (child < 64) × IsCall search.image.now search.query.now view.old.nodes.now call × (position ≡ clause_at search.image.now call.predicate (tried view.old.nodes.now call.node)) }
    requires counted { Counted view.old.nodes.now children.old }
    ensures did { stepped result (words_of view.new) ≡ take_clause search.entry.image.now search.entry.query.now (words_of view.old) worker call.node child }
    ensures counted { Counted view.new.nodes.now children.new }
    ensures lent { SameSlices view.old view.new }
{
    let nodes = &mut *view.nodes;
    let before = words::word_at(nodes, 4 * child as usize);
    let outcome = extension::take_clause(search, view, worker, call, child, position);
    let nodes = &mut *view.nodes;
    children::follow(nodes, children, child, before);
    outcome
}

// How many clauses may be passed over: none where it is not to be looked for.
fn allowed(look: bool, most: u32) -> u32
    ensures { result ≤ most }
{
    if look { most } else { 0 }
}

// Rule 7. The next clause is taken; where its head is sure to fail, it and those behind it that are too, at most so many.
pub fn take_next(
    search: Search<'_>,
    view: &mut View<'_>,
    hand: &mut Hand<'_>,
    worker: u32,
    call: Call,
    child: u32,
    look: bool,
    most: u32,
) -> Progress
    requires live_node { (call.node ≡ get_or view.old.workers.now worker 0) × (live search.image.now search.query.now view.old.nodes.now call.node ≡ true) × IsCall search.image.now search.query.now view.old.nodes.now call × (0 < most) }
    requires free_child { ((eqb (sequential (predicate_word search.image.now call.predicate)) 1 && has_child view.old.nodes.now call.node) ≡ false) × (child ≡ lowest_free view.old.nodes.now) × (child < 64) }
    requires tables_true { HandTrue search.image.now search.query.now view.old.nodes.now hand.old }
    ensures did { Progressed result most search.entry.image.now search.entry.query.now worker (words_of view.old) (words_of view.new) }
    ensures tables_true { HandTrue search.entry.image.now search.entry.query.now view.new.nodes.now hand.new }
    ensures lent { SameSlices view.old view.new × SameTables hand.old hand.new }
{
    let image = search.image;
    let node = call.node;
    let predicate = call.predicate;
    let nodes = &mut *view.nodes;
    let cells = &mut *view.cells;
    let trail = &mut *view.trail;
    let array = &mut *view.array;
    let tried = memory::tried(nodes, node);
    let clauses = &mut *hand.clauses;
    let position = recall::clause_place(image, clauses, node, predicate, tried);
    let most = allowed(look, most);
    let stretch = passing::skip(
        search, nodes, cells, trail, array, call, child, position, most,
    );
    let passed = stretch.count;
    if 0 < passed {
        let next = stretch.position;
        recall::keep_clause(image, clauses, node, predicate, tried + passed, next);
        return Progress::Passed(passed);
    }
    let next = position + words::clause_length(words::word_at(image, position as usize));
    recall::keep_clause(image, clauses, node, predicate, tried + 1, next);
    let children = &mut *hand.children;
    Progress::Did(take_one(search, view, children, worker, call, child, position))
}
