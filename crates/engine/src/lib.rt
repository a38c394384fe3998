// A step of a worker, by document 01's rules 1 to 7, and a run of steps. Nothing is judged here: see the calls.
// What a worker has at hand through a run stands in three tables beside the memory: places of goals and of clauses that were found, and how many children each node has.
#![tactic(auto)]

ghost use Rattle.std.specs.Prelude.{◌≡◌, ◌+◌, ◌<◌};
ghost use Rattle.memory.specs.Views.{words_of, SameSlices};
ghost use Rattle.turns.specs.Hand.{Begun, HandTrue, SameTables};
ghost use Rattle.engine.specs.Runs.{stops, last_count};
ghost use Rattle.model.specs.Steps.{view, stepped, step, ran, run_from};

use goals::Search;
use memory::View;
use model::Outcome;
use turns::{Hand, Progress};

// How a run ended, and the steps that it counts.
#[derive(Clone, Copy)]
pub struct RunEnd {
    pub outcome: Outcome,
    pub count: u32,
}

// Tables for a run from here on, whatever they held: no place is known yet, the children are counted.
pub fn begin(nodes: &[u32], hand: &mut Hand<'_>)
    ensures did { Begun nodes.now hand.new.places.now hand.new.clauses.now hand.new.children.now }
    ensures lent { SameTables hand.old hand.new }
{
    memory::wipe(hand.places);
    memory::wipe(hand.clauses);
    children::tally(nodes, hand.children);
}

// A step in a view.
fn step_in_view(search: Search<'_>, view: &mut View<'_>, worker: u32) -> Outcome
    ensures did { stepped result (words_of view.new) ≡ step search.entry.image.now search.entry.query.now (words_of view.old) worker }
    ensures lent { SameSlices view.old view.new }
{
    let mut places = [0u32; 2];
    let mut clauses = [0u32; 2];
    let mut children = [0u32; 1];
    let mut hand = Hand {
        places: &mut places,
        clauses: &mut clauses,
        children: &mut children,
    };
    let nodes = &mut *view.nodes;
    begin(nodes, &mut hand);
    match turns::advance(search, view, &mut hand, worker, false, 1) {
        Progress::Passed(_) => Outcome::Tried,
        Progress::Did(outcome) => outcome,
    }
}

#[tactic(auto, unfolding(crate::specs::Runs::stops))]
fn stops(outcome: Outcome) -> bool
    ensures { result ≡ stops outcome }
{
    matches!(
        outcome,
        Outcome::Answer | Outcome::Wait | Outcome::Finished | Outcome::Spent | Outcome::Full
    )
}

// Whether a head failed: those behind it may be sure to.
fn failed(outcome: Outcome) -> bool {
    matches!(outcome, Outcome::Tried)
}

// The steps of a run that stops at an outcome after so many: Full is not counted.
#[tactic(auto, unfolding(crate::specs::Runs::last_count))]
fn last_count(count: u32, outcome: Outcome) -> u32
    requires { count + 1 < 4294967296 }
    ensures { result ≡ last_count count outcome }
{
    match outcome {
        Outcome::Full => count,
        _ => count + 1,
    }
}

// A run that goes on with what is at hand.
pub fn run_on(
    search: Search<'_>,
    view: &mut View<'_>,
    hand: &mut Hand<'_>,
    worker: u32,
    budget: u32,
) -> RunEnd
    requires { HandTrue search.image.now search.query.now view.old.nodes.now hand.old }
    ensures did { ran result.outcome result.count (words_of view.new) ≡ run_from budget 0 search.entry.image.now search.entry.query.now worker (words_of view.old) }
    ensures tables_true { HandTrue search.entry.image.now search.entry.query.now view.new.nodes.now hand.new }
    ensures lent { SameSlices view.old view.new × SameTables hand.old hand.new }
{
    let mut count = 0;
    let mut look = false;
    // No `for`: a turn may be many steps.
    while count < budget {
        let left = budget - count;
        match turns::advance(search, view, hand, worker, look, left) {
            Progress::Passed(passed) => {
                count += passed;
                look = true;
            }
            Progress::Did(outcome) if stops(outcome) => {
                let count = last_count(count, outcome);
                return RunEnd { outcome, count };
            }
            Progress::Did(outcome) => {
                count += 1;
                look = failed(outcome);
            }
        }
    }
    RunEnd {
        outcome: Outcome::Spent,
        count,
    }
}

// A run in a view, by tables of its own.
fn run_in_view(search: Search<'_>, view: &mut View<'_>, worker: u32, budget: u32) -> RunEnd
    ensures did { ran result.outcome result.count (words_of view.new) ≡ run_from budget 0 search.entry.image.now search.entry.query.now worker (words_of view.old) }
    ensures lent { SameSlices view.old view.new }
{
    let mut places = [0u32; 128];
    let mut clauses = [0u32; 128];
    let mut children = [0u32; 64];
    let mut hand = Hand {
        places: &mut places,
        clauses: &mut clauses,
        children: &mut children,
    };
    let nodes = &mut *view.nodes;
    begin(nodes, &mut hand);
    run_on(search, view, &mut hand, worker, budget)
}

// A step by a worker at the node where it stands. The slices come one by one, as the calls lend them.
pub fn step(
    search: Search<'_>,
    nodes: &mut [u32],
    cells: &mut [u32],
    trail: &mut [u32],
    array: &mut [u32],
    workers: &mut [u32],
    worker: u32,
) -> Outcome
    ensures { stepped result (view nodes.new cells.new trail.new array.new workers.new) ≡ step search.entry.image.now search.entry.query.now (view nodes.old cells.old trail.old array.old workers.old) worker }
{
    let mut view = View {
        nodes,
        cells,
        trail,
        array,
        workers,
    };
    step_in_view(search, &mut view, worker)
}

// Steps of a worker until Answer, Wait, Finished or Full, or until the budget is used. The slices come one by one, as the calls lend them.
pub fn run(
    search: Search<'_>,
    nodes: &mut [u32],
    cells: &mut [u32],
    trail: &mut [u32],
    array: &mut [u32],
    workers: &mut [u32],
    worker: u32,
    budget: u32,
) -> RunEnd
    ensures { ran result.outcome result.count (view nodes.new cells.new trail.new array.new workers.new) ≡ run_from budget 0 search.entry.image.now search.entry.query.now worker (view nodes.old cells.old trail.old array.old workers.old) }
{
    let mut view = View {
        nodes,
        cells,
        trail,
        array,
        workers,
    };
    run_in_view(search, &mut view, worker, budget)
}
