// One turn of a run: a step by document 01's rules 1 to 7, or as many as pass over clauses that are sure to fail.
// What a worker has at hand stands in three tables beside the memory: places of goals and of clauses that were found, and how many children each node has.
#![tactic(auto)]

mod dead;
mod hand;
mod live;
mod taking;

ghost use Rattle.std.specs.Prelude.{◌<◌};
ghost use Rattle.memory.specs.Views.{words_of, SameSlices};
ghost use Rattle.turns.specs.Hand.{HandTrue, SameTables};
ghost use Rattle.turns.specs.Progress.{Progressed};

use dead::dead_advance;
use goals::Search;
pub use hand::Hand;
use live::{live_advance, live_goal};
use memory::View;
use model::Outcome;

// How far a run came: so many clauses passed over, each a step that says Tried, or one step. Neither is a failure, so it is no Result.
#[derive(Clone, Copy)]
pub enum Progress {
    Passed(u32),
    Did(Outcome),
}

// A step by a worker at the node where it stands; or, where it is to be looked for, clauses passed over, at most so many.
pub fn advance(
    search: Search<'_>,
    view: &mut View<'_>,
    hand: &mut Hand<'_>,
    worker: u32,
    look: bool,
    most: u32,
) -> Progress
    requires { (0 < most) × HandTrue search.image.now search.query.now view.old.nodes.now hand.old }
    ensures did { Progressed result most search.entry.image.now search.entry.query.now worker (words_of view.old) (words_of view.new) }
    ensures tables_true { HandTrue search.entry.image.now search.entry.query.now view.new.nodes.now hand.new }
    ensures lent { SameSlices view.old view.new × SameTables hand.old hand.new }
{
    let workers = &mut *view.workers;
    let node = words::word_at(workers, worker as usize);
    let nodes = &mut *view.nodes;
    let places = &mut *hand.places;
    let Some(call) = live_goal(search, nodes, places, node) else {
        let children = &mut *hand.children;
        return Progress::Did(dead_advance(view, children, worker, node));
    };
    live_advance(search, view, hand, worker, call, look, most)
}
