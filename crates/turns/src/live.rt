// Rules 5 to 7 of a step: what a worker does at a live node.
ghost use Rattle.std.specs.Prelude.{◌≡◌, true, ◌&&◌, ◌<◌, eqb, get_or};
ghost use Rattle.model.specs.Fields.{sequential};
ghost use Rattle.recall.specs.Places.{GoalsKept};
ghost use Rattle.children.specs.Children.{Counted};
ghost use Rattle.goals.specs.Calls.{IsCall};
ghost use Rattle.memory.specs.Views.{words_of, SameSlices};
ghost use Rattle.turns.specs.Hand.{HandTrue, SameTables};
ghost use Rattle.turns.specs.Live.{live_goal};
ghost use Rattle.turns.specs.Progress.{Progressed};
ghost use Rattle.model.specs.Steps.{live, has_child};

use crate::taking::take_next;
use crate::{Hand, Progress};
use goals::{Call, Search};
use memory::View;
use model::Outcome;

// Whether a node is live, and then its first goal.
#[tactic(auto, unfolding(crate::specs::Live::live_goal, model::specs::Steps::live))]
pub fn live_goal(search: Search<'_>, nodes: &[u32], places: &mut [u32], node: u32) -> Option<Call>
    requires { GoalsKept search.image.now search.query.now places.old }
    ensures { (result ≡ live_goal search.entry.image.now search.entry.query.now nodes.now node) × GoalsKept search.entry.image.now search.entry.query.now places.new }
{
    if memory::has_goal(nodes, node) != 1 {
        return None;
    }
    let place = recall::goal_place(search, nodes, places, node);
    let words = search.clause_words(nodes, memory::frame(nodes, node));
    let predicate = words::goal_predicate(words::word_at(words, place));
    let count = words::clause_count(words::word_at(search.image, 1 + predicate as usize));
    if count <= memory::tried(nodes, node) {
        return None;
    }
    Some(Call {
        node,
        predicate,
        place,
    })
}

// Rule 5: a node whose predicate is sequential waits while it has a child.
fn waits(nodes: &[u32], children: &[u32], word: u32, node: u32) -> bool
    requires { Counted nodes.now children.now }
    ensures { result ≡ (eqb (sequential word) 1 && has_child nodes.now node) }
{
    words::sequential(word) == 1 && children::has_child(nodes, children, node)
}

// Rules 5 to 7, at a live node.
pub fn live_advance(
    search: Search<'_>,
    view: &mut View<'_>,
    hand: &mut Hand<'_>,
    worker: u32,
    call: Call,
    look: bool,
    most: u32,
) -> Progress
    requires live_node { (call.node ≡ get_or view.old.workers.now worker 0) × (live search.image.now search.query.now view.old.nodes.now call.node ≡ true) × IsCall search.image.now search.query.now view.old.nodes.now call × (0 < most) }
    requires tables_true { HandTrue search.image.now search.query.now view.old.nodes.now hand.old }
    ensures did { Progressed result most search.entry.image.now search.entry.query.now worker (words_of view.old) (words_of view.new) }
    ensures tables_true { HandTrue search.entry.image.now search.entry.query.now view.new.nodes.now hand.new }
    ensures lent { SameSlices view.old view.new × SameTables hand.old hand.new }
{
    let nodes = &mut *view.nodes;
    let children = &mut *hand.children;
    let word = words::word_at(search.image, 1 + call.predicate as usize);
    if waits(nodes, children, word, call.node) {
        return Progress::Did(Outcome::Wait);
    }
    let Some(child) = memory::lowest_free(nodes) else {
        return Progress::Did(Outcome::Full);
    };
    take_next(search, view, hand, worker, call, child, look, most)
}
