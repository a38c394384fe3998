// The library for C: each call of `host` under its own name, with the clauses that it has there. `include/cumbwael.h` declares them.
#![tactic(auto)]

ghost use Rattle.std.specs.Prelude.{◌≡◌};
ghost use Rattle.model.specs.Bytes.{check_bytes};
ghost use Rattle.model.specs.Image.{check_query};
ghost use Rattle.model.specs.Spread.{pack, unpack};
ghost use Rattle.model.specs.Memory.{memory};
ghost use Rattle.model.specs.Calls.{load_call, step_call, run_call, move_call, read_call};
ghost use Rattle.host.specs.Answers.{answer_of_check, of_writing, called, filled, of_load, of_step, of_run, of_move, of_read};

use host::Answer;

// The check of an image handed as bytes, most significant first.
#[unsafe(no_mangle)]
pub extern "C" fn cumbwael_check(bytes: &[u8]) -> u64
    ensures { result ≡ check_bytes bytes.now }
{
    host::cumbwael_check(bytes)
}

// The check of a query against its image, both as words. The image is judged first.
#[unsafe(no_mangle)]
pub extern "C" fn cumbwael_check_query(image: &[u32], query: &[u32]) -> Answer
    ensures { result ≡ answer_of_check (check_query image.now query.now) }
{
    host::cumbwael_check_query(image, query)
}

// From a spread list to the image that it is the spread form of.
#[unsafe(no_mangle)]
pub extern "C" fn cumbwael_pack(list: &[u32], room: &mut [u32]) -> Answer
    ensures { filled result room.new ≡ of_writing (pack list.now room.old) }
{
    host::cumbwael_pack(list, room)
}

// From a legal image to its spread form.
#[unsafe(no_mangle)]
pub extern "C" fn cumbwael_unpack(image: &[u32], room: &mut [u32]) -> Answer
    ensures { filled result room.new ≡ of_writing (unpack image.now room.old) }
{
    host::cumbwael_unpack(image, room)
}

// Sets memory afresh for a legal image and query.
#[unsafe(no_mangle)]
pub extern "C" fn cumbwael_load(
    image: &[u32],
    query: &[u32],
    nodes: &mut [u32],
    cells: &mut [u32],
    trail: &mut [u32],
    arrays: &mut [u32],
    workers: &mut [u32],
) -> Answer
    ensures { called result (memory nodes.new cells.new trail.new arrays.new workers.new) ≡ of_load (load_call image.now query.now (memory nodes.old cells.old trail.old arrays.old workers.old)) }
{
    host::cumbwael_load(image, query, nodes, cells, trail, arrays, workers)
}

// A step by a worker.
#[unsafe(no_mangle)]
pub extern "C" fn cumbwael_step<'a>(
    image: &'a [u32],
    query: &'a [u32],
    nodes: &mut [u32],
    cells: &mut [u32],
    trail: &mut [u32],
    arrays: &mut [u32],
    workers: &mut [u32],
    worker: u32,
) -> Answer
    ensures { called result (memory nodes.new cells.new trail.new arrays.new workers.new) ≡ of_step (step_call image.now query.now (memory nodes.old cells.old trail.old arrays.old workers.old) worker) }
{
    host::cumbwael_step(image, query, nodes, cells, trail, arrays, workers, worker)
}

// A run of steps by a worker.
#[unsafe(no_mangle)]
pub extern "C" fn cumbwael_run<'a>(
    image: &'a [u32],
    query: &'a [u32],
    nodes: &mut [u32],
    cells: &mut [u32],
    trail: &mut [u32],
    arrays: &mut [u32],
    workers: &mut [u32],
    worker: u32,
    budget: u32,
) -> Answer
    ensures { called result (memory nodes.new cells.new trail.new arrays.new workers.new) ≡ of_run (run_call image.now query.now (memory nodes.old cells.old trail.old arrays.old workers.old) worker budget) }
{
    host::cumbwael_run(
        image, query, nodes, cells, trail, arrays, workers, worker, budget,
    )
}

// Takes a worker to a used slot.
#[unsafe(no_mangle)]
pub extern "C" fn cumbwael_move<'a>(
    image: &'a [u32],
    query: &'a [u32],
    nodes: &[u32],
    cells: &[u32],
    trail: &[u32],
    arrays: &mut [u32],
    workers: &mut [u32],
    worker: u32,
    slot: u32,
) -> Answer
    ensures { called result (memory nodes.now cells.now trail.now arrays.new workers.new) ≡ of_move (move_call image.now query.now (memory nodes.now cells.now trail.now arrays.old workers.old) worker slot) }
{
    host::cumbwael_move(
        image, query, nodes, cells, trail, arrays, workers, worker, slot,
    )
}

// Writes the answer at a node without goals into a room.
#[unsafe(no_mangle)]
pub extern "C" fn cumbwael_read<'a>(
    image: &'a [u32],
    query: &'a [u32],
    nodes: &[u32],
    cells: &[u32],
    trail: &[u32],
    arrays: &[u32],
    workers: &[u32],
    room: &mut [u32],
    worker: u32,
) -> Answer
    ensures { filled result room.new ≡ of_read (read_call image.now query.now (memory nodes.now cells.now trail.now arrays.now workers.now) worker room.old) }
{
    host::cumbwael_read(
        image, query, nodes, cells, trail, arrays, workers, room, worker,
    )
}
