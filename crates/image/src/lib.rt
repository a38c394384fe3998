// The check of an image and of a query: document 01, "Rule image". Each function takes the walk on from a position, or answers the fault that stops it.
// The position and the count of variables seen stay two numbers, as the definitions have them.
#![tactic(auto)]

ghost use Rattle.std.specs.Prelude.{◌≡◌, ◌+◌, ◌≤◌, ◌<◌};
ghost use Rattle.model.specs.Fields.{variables, goal_count};
ghost use Rattle.model.specs.Image.{onward, variable_at, argument, arguments, goal_word, goal, goals, clause_word, clause_end, clause, clauses, predicate, predicates, header, ending, image_walk, query_walk, check_image, check_query};

use model::{Fault, Met, Refusal, Refused, Verdict, Walk};

// A VAR word, where there is a position past it.
#[tactic(auto, unfolding(model::specs::Image::variable_at))]
fn variable_at(word: u32, declared: u32, at: usize, seen: u32) -> Walk
    requires { at + 1 < 18446744073709551616 }
    ensures { result ≡ variable_at word declared at seen }
{
    if words::variable_zero(word) != 0 {
        return Err(Met(Fault::ZeroField, at));
    }
    let number = words::variable_number(word);
    if declared <= number {
        return Err(Met(Fault::VariableNumber, at));
    }
    if number < seen {
        return Ok((at + 1, seen));
    }
    if number == seen {
        return Ok((at + 1, seen + 1));
    }
    Err(Met(Fault::VariableNumber, at))
}

#[tactic(auto, unfolding(model::specs::Image::argument))]
fn argument(words: &[u32], declared: u32, at: usize, seen: u32) -> Walk
    ensures { result ≡ argument words.now declared at seen }
{
    if words.len() <= at {
        return Err(Met(Fault::EndsEarly, words.len()));
    }
    let word = words[at];
    match words::op(word) {
        words::VAR_OP => variable_at(word, declared, at, seen),
        words::CON_OP => Ok((at + 1, seen)),
        _ => Err(Met(Fault::ArgumentExpected, at)),
    }
}

fn arguments(words: &[u32], count: u32, declared: u32, start: usize, before: u32) -> Walk
    ensures { result ≡ arguments count words.now declared start before }
{
    let mut at = start;
    let mut seen = before;
    for _ in 0..count {
        (at, seen) = argument(words, declared, at, seen)?;
    }
    Ok((at, seen))
}

#[tactic(auto, unfolding(model::specs::Image::goal_word))]
fn goal_word(image: &[u32], words: &[u32], at: usize, seen: u32) -> Walk
    ensures { result ≡ goal_word image.now words.now at seen }
{
    if words.len() <= at {
        return Err(Met(Fault::EndsEarly, words.len()));
    }
    let word = words[at];
    match words::op(word) {
        words::GOAL_OP => {}
        _ => return Err(Met(Fault::GoalExpected, at)),
    }
    if words::goal_zero(word) != 0 {
        return Err(Met(Fault::ZeroField, at));
    }
    if words::predicate_count(words::word_at(image, 0)) <= words::goal_predicate(word) {
        return Err(Met(Fault::NoSuchPredicate, at));
    }
    Ok((at + 1, seen))
}

#[tactic(auto, unfolding(model::specs::Image::goal))]
fn goal(image: &[u32], words: &[u32], declared: u32, at: usize, seen: u32) -> Walk
    ensures { result ≡ goal image.now words.now declared at seen }
{
    let (next, met) = goal_word(image, words, at, seen)?;
    let predicate = words::goal_predicate(words::word_at(words, at)) as usize;
    let count = words::arity(words::word_at(image, 1 + predicate));
    arguments(words, count, declared, next, met)
}

fn goals(image: &[u32], words: &[u32], count: u32, declared: u32, start: usize, before: u32) -> Walk
    ensures { result ≡ goals count image.now words.now declared start before }
{
    let mut at = start;
    let mut seen = before;
    for _ in 0..count {
        (at, seen) = goal(image, words, declared, at, seen)?;
    }
    Ok((at, seen))
}

#[tactic(auto, unfolding(model::specs::Image::clause_word))]
fn clause_word(words: &[u32], fewest: u32, at: usize) -> Walk
    ensures { result ≡ clause_word words.now fewest at }
{
    if words.len() <= at {
        return Err(Met(Fault::EndsEarly, words.len()));
    }
    let word = words[at];
    let goals = words::goal_count(word);
    match (words::op(word), words::variables(word), goals) {
        (words::CLAUSE_OP, 0..=32, 0..=16) if fewest <= goals => Ok((at + 1, 0)),
        (words::CLAUSE_OP, 0..=32, _) => Err(Met(Fault::GoalCount, at)),
        (words::CLAUSE_OP, _, _) => Err(Met(Fault::VariableCount, at)),
        _ => Err(Met(Fault::ClauseExpected, at)),
    }
}

// The end of a clause that starts at `start` with the CLAUSE word `word`.
#[tactic(auto, unfolding(model::specs::Image::clause_end))]
fn clause_end(word: u32, start: usize, at: usize, seen: u32) -> Walk
    requires { start ≤ at }
    ensures { result ≡ clause_end word start at seen }
{
    if seen < words::variables(word) {
        return Err(Met(Fault::UnusedVariable, start));
    }
    if words::clause_length(word) as usize != at - start {
        return Err(Met(Fault::ClauseLength, start));
    }
    Ok((at, 0))
}

// What follows a CLAUSE word: head arguments, then goals.
fn body(image: &[u32], words: &[u32], word: u32, head_arity: u32, at: usize, seen: u32) -> Walk
    ensures { result ≡ onward (goals (goal_count word) image.now words.now (variables word)) (arguments head_arity words.now (variables word) at seen) }
{
    let declared = words::variables(word);
    let (next, met) = arguments(words, head_arity, declared, at, seen)?;
    goals(image, words, words::goal_count(word), declared, next, met)
}

#[tactic(auto, unfolding(model::specs::Image::clause))]
fn clause(image: &[u32], words: &[u32], fewest: u32, head_arity: u32, at: usize) -> Walk
    ensures { result ≡ clause image.now words.now fewest head_arity at }
{
    let (next, none) = clause_word(words, fewest, at)?;
    let word = words::word_at(words, at);
    let (end, seen) = body(image, words, word, head_arity, next, none)?;
    clause_end(word, at, end, seen)
}

fn clauses(image: &[u32], count: u32, head_arity: u32, start: usize, before: u32) -> Walk
    ensures { result ≡ clauses count image.now head_arity start before }
{
    let mut at = start;
    let mut seen = before;
    for _ in 0..count {
        (at, seen) = clause(image, image, 0, head_arity, at)?;
    }
    Ok((at, seen))
}

#[tactic(auto, unfolding(model::specs::Image::predicate))]
fn predicate(image: &[u32], number: usize, at: usize, seen: u32) -> Walk
    requires { number < 1024 }
    ensures { result ≡ predicate image.now number at seen }
{
    let word = words::word_at(image, 1 + number);
    if words::first_clause(word) as usize != at {
        return Err(Met(Fault::FirstClause, 1 + number));
    }
    clauses(
        image,
        words::clause_count(word),
        words::arity(word),
        at,
        seen,
    )
}

fn predicates(image: &[u32], count: u32, start: usize, before: u32) -> Walk
    requires { count < 1024 }
    ensures { result ≡ predicates count image.now 0 start before }
{
    let mut at = start;
    let mut seen = before;
    for number in 0..count {
        (at, seen) = predicate(image, number as usize, at, seen)?;
    }
    Ok((at, seen))
}

#[tactic(auto, unfolding(model::specs::Image::header))]
fn header(image: &[u32]) -> Walk
    ensures { result ≡ header image.now }
{
    if image.len() == 0 {
        return Err(Met(Fault::EmptyImage, 0));
    }
    let word = image[0];
    if words::edition(word) != 1 {
        return Err(Met(Fault::WrongEdition, 0));
    }
    let count = words::predicate_count(word);
    if count == 0 {
        return Err(Met(Fault::NoPredicates, 0));
    }
    if words::header_zero(word) != 0 {
        return Err(Met(Fault::ZeroField, 0));
    }
    if words::image_length(word) as usize != image.len() {
        return Err(Met(Fault::LengthField, 0));
    }
    let first = 1 + count as usize;
    if image.len() < first {
        return Err(Met(Fault::EndsEarly, image.len()));
    }
    Ok((first, 0))
}

#[tactic(auto, unfolding(model::specs::Image::ending))]
fn ending(words: &[u32], at: usize, seen: u32) -> Walk
    ensures { result ≡ ending words.now at seen }
{
    if at < words.len() {
        return Err(Met(Fault::LeftOver, at));
    }
    Ok((at, seen))
}

// The walk over a whole image.
#[tactic(auto, unfolding(model::specs::Image::image_walk))]
fn walk_image(image: &[u32]) -> Walk
    ensures { result ≡ image_walk image.now }
{
    let (first, none) = header(image)?;
    let count = words::predicate_count(words::word_at(image, 0));
    let (end, seen) = predicates(image, count, first, none)?;
    ending(image, end, seen)
}

// The check of an image.
#[tactic(auto, unfolding(model::specs::Image::check_image))]
pub fn check_image(image: &[u32]) -> Verdict
    ensures { result ≡ check_image image.now }
{
    match walk_image(image) {
        Ok(_) => Ok(()),
        Err(Met(fault, at)) => Err(Refused(Refusal::Image(fault), at)),
    }
}

// The walk over a query.
#[tactic(auto, unfolding(model::specs::Image::query_walk))]
fn walk_query(image: &[u32], query: &[u32]) -> Walk
    ensures { result ≡ query_walk image.now query.now }
{
    let (end, seen) = clause(image, query, 1, 0, 0)?;
    ending(query, end, seen)
}

// The check of a query against an image, which is judged first.
#[tactic(auto, unfolding(model::specs::Image::check_query))]
pub fn check_query(image: &[u32], query: &[u32]) -> Verdict
    ensures { result ≡ check_query image.now query.now }
{
    check_image(image)?;
    match walk_query(image, query) {
        Ok(_) => Ok(()),
        Err(Met(fault, at)) => Err(Refused(Refusal::Query(fault), at)),
    }
}
