// A stored call is made on what is lent for it, and its answer is held against what is stored.
// The slices are passed one by one, as the calls take them, which is as C lends them.
use crate::answers::agrees;
use crate::room::{fill, holds, written};
use crate::stored::{Call, Kind};
use numbers::outcome_number;
use std::fs::File;

// The room is longer than what is lent of it, to show that the words past that stay.
fn read_call_agrees<'a>(
    file: &mut File,
    call: Call,
    image: &'a [u32],
    query: &'a [u32],
    nodes: &[u32],
    cells: &[u32],
    trail: &[u32],
    arrays: &[u32],
    workers: &[u32],
) -> bool {
    let mut room = [0u32; 64];
    let size = call.given as usize;
    if room.len() < size {
        return false;
    }
    fill(&mut room);
    let worker = call.worker;
    let lent = &mut room[..size];
    let answer = calls::read(
        image, query, nodes, cells, trail, arrays, workers, worker, lent,
    );
    holds(file, &room, written(call)) && agrees(answer, call, |count| count == call.first as usize)
}

pub fn answer_agrees<'a>(
    file: &mut File,
    call: Call,
    image: &'a [u32],
    query: &'a [u32],
    nodes: &mut [u32],
    cells: &mut [u32],
    trail: &mut [u32],
    arrays: &mut [u32],
    workers: &mut [u32],
) -> bool {
    let worker = call.worker;
    let given = call.given;
    match call.kind {
        Kind::Load => {
            let answer = calls::load(image, query, nodes, cells, trail, arrays, workers);
            agrees(answer, call, |()| call.says(0, 0, 0))
        }
        Kind::Step => {
            let answer = calls::step(image, query, nodes, cells, trail, arrays, workers, worker);
            agrees(
                answer,
                call,
                |(outcome, slot)| call.says(outcome_number(outcome), slot, 0),
            )
        }
        Kind::Run | Kind::Other(_) => {
            let answer = calls::run(
                image, query, nodes, cells, trail, arrays, workers, worker, given,
            );
            agrees(
                answer,
                call,
                |(outcome, slot, count)| call.says(outcome_number(outcome), slot, count),
            )
        }
        Kind::Move => {
            let answer = calls::move_worker(
                image, query, nodes, cells, trail, arrays, workers, worker, given,
            );
            agrees(answer, call, |entries| call.says(entries, 0, 0))
        }
        Kind::Read => read_call_agrees(
            file, call, image, query, nodes, cells, trail, arrays, workers,
        ),
    }
}
