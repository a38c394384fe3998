// The calls on the shared memory. Every one takes image and query, the five slices in document 01's order, then the numbers.
ghost use Rattle.std.specs.Prelude.{◌≡◌};
ghost use Rattle.model.specs.Memory.{memory};
ghost use Rattle.model.specs.Calls.{load_call, step_call, run_call, move_call, read_call};
ghost use Rattle.host.specs.Answers.{called, filled, of_load, of_step, of_run, of_move, of_read};

use crate::Answer;

// Sets memory afresh for a legal image and query.
pub fn cumbwael_load(
    image: &[u32],
    query: &[u32],
    nodes: &mut [u32],
    cells: &mut [u32],
    trail: &mut [u32],
    arrays: &mut [u32],
    workers: &mut [u32],
) -> Answer
    ensures { called result (memory nodes.new cells.new trail.new arrays.new workers.new) ≡ of_load (load_call image.now query.now (memory nodes.old cells.old trail.old arrays.old workers.old)) }
{
    Answer::from(calls::load(image, query, nodes, cells, trail, arrays, workers))
}

// A step by a worker.
pub fn cumbwael_step<'a>(
    image: &'a [u32],
    query: &'a [u32],
    nodes: &mut [u32],
    cells: &mut [u32],
    trail: &mut [u32],
    arrays: &mut [u32],
    workers: &mut [u32],
    worker: u32,
) -> Answer
    ensures { called result (memory nodes.new cells.new trail.new arrays.new workers.new) ≡ of_step (step_call image.now query.now (memory nodes.old cells.old trail.old arrays.old workers.old) worker) }
{
    Answer::from(calls::step(image, query, nodes, cells, trail, arrays, workers, worker))
}

// A run of steps by a worker.
pub fn cumbwael_run<'a>(
    image: &'a [u32],
    query: &'a [u32],
    nodes: &mut [u32],
    cells: &mut [u32],
    trail: &mut [u32],
    arrays: &mut [u32],
    workers: &mut [u32],
    worker: u32,
    budget: u32,
) -> Answer
    ensures { called result (memory nodes.new cells.new trail.new arrays.new workers.new) ≡ of_run (run_call image.now query.now (memory nodes.old cells.old trail.old arrays.old workers.old) worker budget) }
{
    Answer::from(calls::run(
        image, query, nodes, cells, trail, arrays, workers, worker, budget,
    ))
}

// Takes a worker to a used slot.
pub fn cumbwael_move<'a>(
    image: &'a [u32],
    query: &'a [u32],
    nodes: &[u32],
    cells: &[u32],
    trail: &[u32],
    arrays: &mut [u32],
    workers: &mut [u32],
    worker: u32,
    slot: u32,
) -> Answer
    ensures { called result (memory nodes.now cells.now trail.now arrays.new workers.new) ≡ of_move (move_call image.now query.now (memory nodes.now cells.now trail.now arrays.old workers.old) worker slot) }
{
    Answer::from(calls::move_worker(
        image, query, nodes, cells, trail, arrays, workers, worker, slot,
    ))
}

// Writes the answer at a node without goals into a room.
pub fn cumbwael_read<'a>(
    image: &'a [u32],
    query: &'a [u32],
    nodes: &[u32],
    cells: &[u32],
    trail: &[u32],
    arrays: &[u32],
    workers: &[u32],
    room: &mut [u32],
    worker: u32,
) -> Answer
    ensures { filled result room.new ≡ of_read (read_call image.now query.now (memory nodes.now cells.now trail.now arrays.now workers.now) worker room.old) }
{
    Answer::from(calls::read(
        image, query, nodes, cells, trail, arrays, workers, worker, room,
    ))
}
