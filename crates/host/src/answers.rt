// What the calls answer, in the numbers that a host in C gets.
ghost use Rattle.std.specs.Prelude.{◌≡◌, min};
ghost use Rattle.model.specs.Numbers.{refusal_number};
ghost use Rattle.host.specs.Answers.{done, refused, answer_of_check, answer_of, answer_of_step, answer_of_run, answer_of_move};

use crate::Answer;
use model::{MoveAnswer, Refused, RunAnswer, StepAnswer, Verdict, Written};

// A position or a count in 32 bits: the greatest number stands for itself and for all above it.
fn cut(n: usize) -> u32
    ensures { result ≡ min n 4294967295 }
{
    n.min(4294967295) as u32
}

// What was done; nothing was refused.
fn done_with(outcome: u32, slot: u32, count: u32) -> Answer
    ensures { result ≡ done outcome slot count }
{
    Answer {
        refusal: 0,
        position: 0,
        outcome,
        slot,
        count,
    }
}

// A refusal has no outcome, slot or count.
impl From<Refused> for Answer {
    ghost from_gives = { λ stop r. r ≡ refused (refusal_number stop.0) (min stop.1 4294967295) };

    fn from(stop: Refused) -> Answer {
        let Refused(refusal, at) = stop;
        Answer {
            refusal: numbers::refusal_number(refusal),
            position: cut(at),
            outcome: 0,
            slot: 0,
            count: 0,
        }
    }
}

impl From<Verdict> for Answer {
    ghost from_gives = { λ verdict r. r ≡ answer_of_check verdict };

    fn from(verdict: Verdict) -> Answer {
        match verdict {
            Ok(()) => done_with(0, 0, 0),
            Err(stop) => Answer::from(stop),
        }
    }
}

impl From<Written> for Answer {
    ghost from_gives = { λ written r. r ≡ answer_of written };

    fn from(written: Written) -> Answer {
        match written {
            Ok(count) => done_with(0, 0, cut(count)),
            Err(stop) => Answer::from(stop),
        }
    }
}

impl From<StepAnswer> for Answer {
    ghost from_gives = { λ answer r. r ≡ answer_of_step answer };

    fn from(answer: StepAnswer) -> Answer {
        match answer {
            Ok((outcome, slot)) => done_with(numbers::outcome_number(outcome), slot, 0),
            Err(stop) => Answer::from(stop),
        }
    }
}

impl From<RunAnswer> for Answer {
    ghost from_gives = { λ answer r. r ≡ answer_of_run answer };

    fn from(answer: RunAnswer) -> Answer {
        match answer {
            Ok((outcome, slot, count)) => done_with(numbers::outcome_number(outcome), slot, count),
            Err(stop) => Answer::from(stop),
        }
    }
}

impl From<MoveAnswer> for Answer {
    ghost from_gives = { λ answer r. r ≡ answer_of_move answer };

    fn from(answer: MoveAnswer) -> Answer {
        match answer {
            Ok(passed) => done_with(0, 0, passed),
            Err(stop) => Answer::from(stop),
        }
    }
}
