// The answers and kinds that the definitions of `specs/` speak of. Each enum has a definition there that gives document 01's number for each case.
#![tactic(auto)]

// The kinds of word of document 01: the rule image's, then the shared memory's.
#[derive(Clone, Copy)]
pub enum Kind {
    Header,
    Predicate,
    Clause,
    Var,
    Con,
    Goal,
    Node0,
    Node1,
    Node2,
    Node3,
    Value,
}

// What is wrong with an image or a query: faults 1 to 17, in their order.
#[derive(Clone, Copy, Debug, PartialEq, Eq)]
pub enum Fault {
    EmptyImage,
    WrongEdition,
    NoPredicates,
    ZeroField,
    LengthField,
    EndsEarly,
    FirstClause,
    ClauseExpected,
    VariableCount,
    GoalCount,
    ArgumentExpected,
    VariableNumber,
    GoalExpected,
    NoSuchPredicate,
    UnusedVariable,
    ClauseLength,
    LeftOver,
}

// A fault, and the position at which the check met it.
#[derive(Clone, Copy, Debug, PartialEq, Eq)]
pub struct Met(pub Fault, pub usize);

// Where the check stands: on, at a word and with so many variables seen in the clause; or stopped by a fault.
pub type Walk = Result<(usize, u32), Met>;

// Why a call is refused: a fault of the image; a fault of the query, whose numbers are its own; and what is wrong with a spread list or a room.
#[derive(Clone, Copy, Debug, PartialEq, Eq)]
pub enum Refusal {
    Image(Fault),
    Query(Fault),
    TooWide,
    ListEnds,
    Room,
    UnknownOp,
    SliceLength,
    Damaged,
    NoWorker,
    NoSlot,
    NoAnswer,
}

// A refusal and its position.
#[derive(Clone, Copy, Debug, PartialEq, Eq)]
pub struct Refused(pub Refusal, pub usize);

// What a check answers: legal, or the refusal.
pub type Verdict = Result<(), Refused>;

// Where the scan of a spread list stands: through, up to a place in the list or a count of words; or stopped by a refusal.
pub type Scan = Result<usize, Refused>;

// What a call that writes into a room answers: the count of words written, or the refusal.
pub type Written = Result<usize, Refused>;

// A variable's number: it names a slot of the binding arrays, and repeats on sibling branches.
#[derive(Clone, Copy)]
pub struct VarNo(pub u32);

// A cell's address: it names a cell, and does not repeat.
#[derive(Clone, Copy)]
pub struct CellAddr(pub u32);

// What dereferencing answers. Neither is a failure or an absence, so it is no Result and no Option.
#[derive(Clone, Copy)]
pub enum Found {
    Unbound(VarNo, CellAddr),
    Constant(u32),
}

// Where a node's first goal stands, if it has one: the slot whose clause holds it, and its index there.
pub type FirstGoal = Option<(u32, u32)>;

// What unifying two dereferenced arguments comes to: nothing to do, a clash of constants, or a binding of a variable to a word.
#[derive(Clone, Copy)]
pub enum Pairing {
    Nothing,
    Clash,
    Binds(VarNo, CellAddr, u32),
}

// How unifying a pair of arguments, or a head, failed: a clash of constants, when the child had so many trail entries.
#[derive(Clone, Copy, Debug, PartialEq, Eq)]
pub struct Clash(pub u32);

// What a step or a run did. Document 01 gives the numbers in brackets.
#[derive(Clone, Copy, Debug, PartialEq, Eq)]
pub enum Outcome {
    Tried,
    Extended,
    Answer,
    Back,
    Left,
    Wait,
    Finished,
    Spent,
    Full,
}

// What a step answers: the outcome and the worker's slot, or the refusal.
pub type StepAnswer = Result<(Outcome, u32), Refused>;

// What a run answers: the outcome, the worker's slot and the steps counted, or the refusal.
pub type RunAnswer = Result<(Outcome, u32, u32), Refused>;

// What a move answers: the entries passed on both legs, or the refusal.
pub type MoveAnswer = Result<u32, Refused>;
