// Where goals and clauses stand: document 01, "The steps", first paragraph.
#![tactic(auto)]

ghost use Rattle.std.specs.Prelude.{◌≡◌, ◌+◌, ◌<◌};
ghost use Rattle.model.specs.Decoding.{goal_next, goal_from, clause_from, clause_at};
ghost use Rattle.model.specs.Goals.{clause_words, past_head, goal_place, goals_of, next_goal, child_goal};
ghost use Rattle.model.specs.Steps.{goal_of, predicate_of};

use model::FirstGoal;

const ROOT: u32 = 0;

// What a search goes by: the rule image and the query.
#[derive(Clone, Copy)]
pub struct Search<'a> {
    pub image: &'a [u32],
    pub query: &'a [u32],
}

// A live node's first goal: the node, the predicate that it calls, and the place where it stands.
#[derive(Clone, Copy)]
pub struct Call {
    pub node: u32,
    pub predicate: u32,
    pub place: usize,
}

// The first GOAL word from a place on, past at most so many head arguments.
fn past_head(words: &[u32], start: usize, most: u32) -> usize
    requires { start < 1099511627776 }
    ensures { result ≡ past_head most words.now start }
{
    let end = start + most as usize;
    for at in start..end {
        if words::op(words::word_at(words, at)) == words::GOAL_OP {
            return at;
        }
    }
    end
}

// The place after a goal: its word and its arguments are passed.
#[tactic(auto, unfolding(model::specs::Decoding::goal_next))]
fn goal_next(image: &[u32], words: &[u32], at: usize) -> usize
    requires { at < 2251799813685248 }
    ensures { result ≡ goal_next image.now words.now at }
{
    let predicate = words::goal_predicate(words::word_at(words, at)) as usize;
    at + 1 + words::arity(words::word_at(image, 1 + predicate)) as usize
}

// The place of the goal so many goals after the one here.
fn goal_from(image: &[u32], words: &[u32], start: usize, goals: u32) -> usize
    requires { start < 1125899906842624 }
    ensures { result ≡ goal_from image.now words.now start goals }
{
    let mut at = start;
    for _ in 0..goals {
        at = goal_next(image, words, at);
    }
    at
}

// The place of a clause's goal by its index.
#[tactic(auto, unfolding(model::specs::Goals::goal_place))]
pub fn goal_place(image: &[u32], words: &[u32], position: u32, index: u32) -> usize
    ensures { result ≡ goal_place image.now words.now position index }
{
    let first = past_head(words, position as usize + 1, 15);
    goal_from(image, words, first, index)
}

// The place of a clause of a predicate, by following the clauses' lengths.
#[tactic(auto, unfolding(model::specs::Decoding::clause_at))]
pub fn clause_at(image: &[u32], predicate: u32, clause: u32) -> usize
    ensures { result ≡ clause_at image.now predicate clause }
{
    let first = words::first_clause(words::word_at(image, 1 + predicate as usize)) as usize;
    clause_from(image, first, clause)
}

// The place of the clause so many clauses after the one here.
fn clause_from(image: &[u32], start: usize, clauses: u32) -> usize
    requires { start < 1099511627776 }
    ensures { result ≡ clause_from image.now start clauses }
{
    let mut at = start;
    for _ in 0..clauses {
        at += words::clause_length(words::word_at(image, at)) as usize;
    }
    at
}

impl<'a> Search<'a> {
    // The words that hold a slot's clause: the query's for the root.
    pub fn clause_words(self, nodes: &[u32], slot: u32) -> &'a [u32]
        ensures { result.now ≡ clause_words self.entry.image.now self.entry.query.now nodes.now slot }
    {
        if memory::clause_position(nodes, slot) == 0 {
            return self.query;
        }
        self.image
    }

    // How many goals a slot's clause has.
    pub fn goals_of(self, nodes: &[u32], slot: u32) -> u32
        ensures { result ≡ goals_of self.entry.image.now self.entry.query.now nodes.now slot }
    {
        let at = memory::clause_position(nodes, slot) as usize;
        words::goal_count(words::word_at(self.clause_words(nodes, slot), at))
    }

    // Into `found`, the goal behind the one at an index of a slot's clause. It climbs from frame to parent frame until a goal remains, depth falling at each call.
    // The search is lent, and the answer's place: so the compiler makes a loop of it, and depth costs no stack. Passed and answered by value, both would be copied at each call.
    fn climb(&self, nodes: &[u32], depth: u32, slot: u32, index: u32, found: &mut FirstGoal)
        requires { index < 16 }
        ensures { found.new ≡ next_goal depth self.now.image.now self.now.query.now nodes.now slot index }
    {
        if index + 1 < self.goals_of(nodes, slot) {
            *found = Some((slot, index + 1));
            return;
        }
        if depth == 0 {
            *found = None;
            return;
        }
        if slot == ROOT {
            *found = None;
            return;
        }
        let above = memory::parent(nodes, slot);
        let frame = memory::frame(nodes, above);
        let goal = memory::goal_index(nodes, above);
        self.climb(nodes, depth - 1, frame, goal, found)
    }

    // The goal behind the one at an index of a slot's clause.
    fn next_goal(self, nodes: &[u32], depth: u32, slot: u32, index: u32) -> FirstGoal
        requires { index < 16 }
        ensures { result ≡ next_goal depth self.entry.image.now self.entry.query.now nodes.now slot index }
    {
        let mut found = None;
        self.climb(nodes, depth, slot, index, &mut found);
        found
    }

    // The first goal of a child with so many goals of its own, of a node whose first goal stands at an index of a slot's clause.
    #[tactic(auto, unfolding(model::specs::Goals::child_goal))]
    pub fn child_goal(
        self,
        nodes: &[u32],
        child: u32,
        goals: u32,
        slot: u32,
        index: u32,
    ) -> FirstGoal
        requires { index < 16 }
        ensures { result ≡ child_goal self.entry.image.now self.entry.query.now nodes.now child goals slot index }
    {
        if goals != 0 {
            return Some((child, 0));
        }
        self.next_goal(nodes, memory::depth(nodes, slot), slot, index)
    }

    // The place of a node's first goal.
    #[tactic(auto, unfolding(model::specs::Steps::goal_of))]
    pub fn goal_of(self, nodes: &[u32], node: u32) -> usize
        ensures { result ≡ goal_of self.entry.image.now self.entry.query.now nodes.now node }
    {
        let slot = memory::frame(nodes, node);
        goal_place(
            self.image,
            self.clause_words(nodes, slot),
            memory::clause_position(nodes, slot),
            memory::goal_index(nodes, node),
        )
    }

    // The predicate that a node's first goal calls.
    #[tactic(auto, unfolding(model::specs::Steps::predicate_of))]
    pub fn predicate_of(self, nodes: &[u32], node: u32) -> u32
        ensures { result ≡ predicate_of self.entry.image.now self.entry.query.now nodes.now node }
    {
        let at = self.goal_of(nodes, node);
        let words = self.clause_words(nodes, memory::frame(nodes, node));
        words::goal_predicate(words::word_at(words, at))
    }
}
