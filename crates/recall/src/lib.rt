// Places that were found before are kept at hand through a run, so that no goal and no clause is walked to again. What is kept is the place and what names it; image and query never change, so it stays true whatever becomes of the memory. Document 01, "The steps".
#![tactic(auto)]

ghost use Rattle.std.specs.Prelude.{◌≡◌, ◌<◌};
ghost use Rattle.model.specs.Decoding.{clause_at};
ghost use Rattle.model.specs.Steps.{goal_of};
ghost use Rattle.recall.specs.Recall.{recalled, kept};
ghost use Rattle.recall.specs.Places.{GoalsKept, ClausesKept};

use goals::Search;

// What was found before for a slot and a key, if anything. A place of 0 is none: the query's word and the image's header stand there.
#[tactic(auto, unfolding(crate::specs::Recall::recalled))]
fn recall(memo: &[u32], slot: u32, key: u32) -> Option<u32>
    ensures { result ≡ recalled memo.now slot key }
{
    let at = 2 * slot as usize;
    if words::word_at(memo, at) != key {
        return None;
    }
    match words::word_at(memo, at + 1) {
        0 => None,
        found => Some(found),
    }
}

#[tactic(auto, unfolding(crate::specs::Recall::kept))]
fn keep(memo: &mut [u32], slot: u32, key: u32, found: u32)
    ensures { memo.new ≡ kept memo.old slot key found }
{
    let at = 2 * slot as usize;
    words::put(memo, at, key);
    words::put(memo, at + 1, found);
}

// The place of a node's first goal.
pub fn goal_place(search: Search<'_>, nodes: &[u32], places: &mut [u32], node: u32) -> usize
    requires { GoalsKept search.image.now search.query.now places.old }
    ensures { (result ≡ goal_of search.entry.image.now search.entry.query.now nodes.now node) × GoalsKept search.entry.image.now search.entry.query.now places.new }
{
    let slot = memory::frame(nodes, node);
    let key = 16 * memory::clause_position(nodes, slot) + memory::goal_index(nodes, node);
    if let Some(place) = recall(places, node, key) {
        return place as usize;
    }
    let place = search.goal_of(nodes, node);
    keep(places, node, key, place as u32);
    place
}

// The place of a clause that a node takes, by its predicate and its number there.
pub fn clause_place(image: &[u32], clauses: &[u32], node: u32, predicate: u32, clause: u32) -> u32
    requires { ClausesKept image.now clauses.now × (predicate < 1024) × (clause < 1024) }
    ensures { result ≡ clause_at image.now predicate clause }
{
    if let Some(place) = recall(clauses, node, 1024 * predicate + clause) {
        return place;
    }
    goals::clause_at(image, predicate, clause) as u32
}

// The place of the clause that a node takes next is known.
pub fn keep_clause(
    image: &[u32],
    clauses: &mut [u32],
    node: u32,
    predicate: u32,
    clause: u32,
    place: u32,
)
    requires { ClausesKept image.now clauses.old × (predicate < 1024) × (clause < 1024) × (place ≡ clause_at image.now predicate clause) }
    ensures { ClausesKept image.now clauses.new }
{
    keep(clauses, node, 1024 * predicate + clause, place);
}
