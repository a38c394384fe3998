// Document 01's number for each refusal and each outcome, as the definitions of `model` give them.
// They are matches and no discriminants: each is document 01's list, line by line, and a refusal may carry a fault.
#![tactic(auto)]

ghost use Rattle.std.specs.Prelude.{◌≡◌, ◌<◌};
ghost use Rattle.model.specs.Numbers.{fault_number, refusal_number};
ghost use Rattle.model.specs.Machine.{outcome_number};

use model::{Fault, Outcome, Refusal};

pub fn fault_number(fault: Fault) -> u32
    ensures { result ≡ fault_number fault }
{
    match fault {
        Fault::EmptyImage => 1,
        Fault::WrongEdition => 2,
        Fault::NoPredicates => 3,
        Fault::ZeroField => 4,
        Fault::LengthField => 5,
        Fault::EndsEarly => 6,
        Fault::FirstClause => 7,
        Fault::ClauseExpected => 8,
        Fault::VariableCount => 9,
        Fault::GoalCount => 10,
        Fault::ArgumentExpected => 11,
        Fault::VariableNumber => 12,
        Fault::GoalExpected => 13,
        Fault::NoSuchPredicate => 14,
        Fault::UnusedVariable => 15,
        Fault::ClauseLength => 16,
        Fault::LeftOver => 17,
    }
}

pub fn refusal_number(refusal: Refusal) -> u32
    ensures { result ≡ refusal_number refusal }
{
    match refusal {
        Refusal::Image(fault) => fault_number(fault),
        Refusal::Query(fault) => 32 + fault_number(fault),
        Refusal::TooWide => 18,
        Refusal::ListEnds => 19,
        Refusal::Room => 26,
        Refusal::UnknownOp => 29,
        Refusal::SliceLength => 20,
        Refusal::Damaged => 21,
        Refusal::NoWorker => 22,
        Refusal::NoSlot => 23,
        Refusal::NoAnswer => 25,
    }
}

pub fn outcome_number(outcome: Outcome) -> u32
    ensures { result ≡ outcome_number outcome }
{
    match outcome {
        Outcome::Tried => 0,
        Outcome::Extended => 1,
        Outcome::Answer => 2,
        Outcome::Back => 3,
        Outcome::Left => 4,
        Outcome::Wait => 5,
        Outcome::Finished => 6,
        Outcome::Spent => 7,
        Outcome::Full => 24,
    }
}
