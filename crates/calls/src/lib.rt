// The calls on a loaded memory: each is its refusals, in document 01's order, and then a core that judges nothing. A refused call leaves every lent word as it is.
// The slices come one by one, as C lends them.
#![tactic(auto)]

ghost use Rattle.std.specs.Prelude.{◌≡◌, length};
ghost use Rattle.model.specs.Memory.{memory};
ghost use Rattle.model.specs.Calls.{lengths_right, load_refusal, call_refusal, loaded_to, load_call, step_called, step_call, run_called, run_call, move_refusal, move_called, move_call, read_refusal, read_called, read_call};

use bindings::Tree;
use goals::Search;
use model::{MoveAnswer, Refusal, Refused, RunAnswer, StepAnswer, Verdict, Written};

const WORKERS: u32 = 4;

#[tactic(auto, unfolding(model::specs::Calls::lengths_right))]
fn lengths_right(
    nodes: &[u32],
    cells: &[u32],
    trail: &[u32],
    arrays: &[u32],
    workers: &[u32],
) -> bool
    ensures { result ≡ lengths_right (memory nodes.now cells.now trail.now arrays.now workers.now) }
{
    nodes.len() == 256
        && cells.len() == 2048
        && trail.len() == 2048
        && arrays.len() == 8192
        && workers.len() == 4
}

// 20, then the image, then the query.
#[tactic(auto, unfolding(model::specs::Calls::load_refusal))]
fn load_refusal(
    image: &[u32],
    query: &[u32],
    nodes: &[u32],
    cells: &[u32],
    trail: &[u32],
    arrays: &[u32],
    workers: &[u32],
) -> Verdict
    ensures { result ≡ load_refusal image.now query.now (memory nodes.now cells.now trail.now arrays.now workers.now) }
{
    if !lengths_right(nodes, cells, trail, arrays, workers) {
        return Err(Refused(Refusal::SliceLength, 0));
    }
    image::check_query(image, query)
}

// 20, image, query, 21, 22.
#[tactic(auto, unfolding(model::specs::Calls::call_refusal))]
fn call_refusal<'a>(
    image: &'a [u32],
    query: &'a [u32],
    nodes: &[u32],
    cells: &[u32],
    trail: &[u32],
    arrays: &[u32],
    workers: &[u32],
    worker: u32,
) -> Verdict
    ensures { result ≡ call_refusal image.now query.now (memory nodes.now cells.now trail.now arrays.now workers.now) worker }
{
    load_refusal(image, query, nodes, cells, trail, arrays, workers)?;
    let tree = Tree {
        nodes,
        cells,
        trail,
    };
    if !audit::sound(Search { image, query }, tree, arrays, workers) {
        return Err(Refused(Refusal::Damaged, 0));
    }
    if WORKERS <= worker {
        return Err(Refused(Refusal::NoWorker, 0));
    }
    Ok(())
}

// Sets memory afresh for a legal image and query.
#[tactic(auto, unfolding(model::specs::Calls::load_call, model::specs::Calls::load_if))]
pub fn load(
    image: &[u32],
    query: &[u32],
    nodes: &mut [u32],
    cells: &mut [u32],
    trail: &mut [u32],
    arrays: &mut [u32],
    workers: &mut [u32],
) -> Verdict
    ensures { loaded_to result (memory nodes.new cells.new trail.new arrays.new workers.new) ≡ load_call image.now query.now (memory nodes.old cells.old trail.old arrays.old workers.old) }
{
    load_refusal(image, query, nodes, cells, trail, arrays, workers)?;
    moves::load(query, nodes, cells, trail, arrays, workers);
    Ok(())
}

// A step by a worker.
#[tactic(auto, unfolding(model::specs::Calls::step_call, model::specs::Calls::step_if))]
pub fn step<'a>(
    image: &'a [u32],
    query: &'a [u32],
    nodes: &mut [u32],
    cells: &mut [u32],
    trail: &mut [u32],
    arrays: &mut [u32],
    workers: &mut [u32],
    worker: u32,
) -> StepAnswer
    ensures { step_called result (memory nodes.new cells.new trail.new arrays.new workers.new) ≡ step_call image.now query.now (memory nodes.old cells.old trail.old arrays.old workers.old) worker }
{
    call_refusal(image, query, nodes, cells, trail, arrays, workers, worker)?;
    let search = Search { image, query };
    let base = 2048 * worker as usize;
    let end = base + 2048;
    let array = &mut arrays[base..end];
    let outcome = engine::step(search, nodes, cells, trail, array, workers, worker);
    Ok((outcome, words::word_at(workers, worker as usize)))
}

// A run of steps by a worker.
#[tactic(auto, unfolding(model::specs::Calls::run_call, model::specs::Calls::run_if))]
pub fn run<'a>(
    image: &'a [u32],
    query: &'a [u32],
    nodes: &mut [u32],
    cells: &mut [u32],
    trail: &mut [u32],
    arrays: &mut [u32],
    workers: &mut [u32],
    worker: u32,
    budget: u32,
) -> RunAnswer
    ensures { run_called result (memory nodes.new cells.new trail.new arrays.new workers.new) ≡ run_call image.now query.now (memory nodes.old cells.old trail.old arrays.old workers.old) worker budget }
{
    call_refusal(image, query, nodes, cells, trail, arrays, workers, worker)?;
    let search = Search { image, query };
    let base = 2048 * worker as usize;
    let end = base + 2048;
    let array = &mut arrays[base..end];
    let ended = engine::run(search, nodes, cells, trail, array, workers, worker, budget);
    let slot = words::word_at(workers, worker as usize);
    Ok((ended.outcome, slot, ended.count))
}

// 20 to 22, then 23: a slot above 63, or free.
#[tactic(auto, unfolding(model::specs::Calls::move_refusal))]
fn move_refusal<'a>(
    image: &'a [u32],
    query: &'a [u32],
    nodes: &[u32],
    cells: &[u32],
    trail: &[u32],
    arrays: &[u32],
    workers: &[u32],
    worker: u32,
    slot: u32,
) -> Verdict
    ensures { result ≡ move_refusal image.now query.now (memory nodes.now cells.now trail.now arrays.now workers.now) worker slot }
{
    call_refusal(image, query, nodes, cells, trail, arrays, workers, worker)?;
    if 64 <= slot || memory::used(nodes, slot) != 1 {
        return Err(Refused(Refusal::NoSlot, 0));
    }
    Ok(())
}

// Takes a worker to a used slot.
#[tactic(auto, unfolding(model::specs::Calls::move_call, model::specs::Calls::move_if))]
pub fn move_worker<'a>(
    image: &'a [u32],
    query: &'a [u32],
    nodes: &[u32],
    cells: &[u32],
    trail: &[u32],
    arrays: &mut [u32],
    workers: &mut [u32],
    worker: u32,
    slot: u32,
) -> MoveAnswer
    ensures { move_called result (memory nodes.now cells.now trail.now arrays.new workers.new) ≡ move_call image.now query.now (memory nodes.now cells.now trail.now arrays.old workers.old) worker slot }
{
    move_refusal(
        image, query, nodes, cells, trail, arrays, workers, worker, slot,
    )?;
    Ok(moves::move_to(nodes, trail, arrays, workers, worker, slot))
}

// 20 to 22, then 25: a goal remains; then 26: less room than the query has variables.
#[tactic(auto, unfolding(model::specs::Calls::read_refusal))]
fn read_refusal<'a>(
    image: &'a [u32],
    query: &'a [u32],
    nodes: &[u32],
    cells: &[u32],
    trail: &[u32],
    arrays: &[u32],
    workers: &[u32],
    worker: u32,
    room: usize,
) -> Verdict
    ensures { result ≡ read_refusal image.now query.now (memory nodes.now cells.now trail.now arrays.now workers.now) worker room }
{
    call_refusal(image, query, nodes, cells, trail, arrays, workers, worker)?;
    if memory::has_goal(nodes, words::word_at(workers, worker as usize)) == 1 {
        return Err(Refused(Refusal::NoAnswer, 0));
    }
    if room < words::variables(words::word_at(query, 0)) as usize {
        return Err(Refused(Refusal::Room, 0));
    }
    Ok(())
}

// Writes the answer at a node without goals into a room.
#[tactic(auto, unfolding(model::specs::Calls::read_call, model::specs::Calls::read_if))]
pub fn read<'a>(
    image: &'a [u32],
    query: &'a [u32],
    nodes: &[u32],
    cells: &[u32],
    trail: &[u32],
    arrays: &[u32],
    workers: &[u32],
    worker: u32,
    room: &mut [u32],
) -> Written
    ensures { read_called result room.new ≡ read_call image.now query.now (memory nodes.now cells.now trail.now arrays.now workers.now) worker room.old }
{
    read_refusal(
        image,
        query,
        nodes,
        cells,
        trail,
        arrays,
        workers,
        worker,
        room.len(),
    )?;
    Ok(moves::read_answer(query, cells, arrays, worker, room))
}
