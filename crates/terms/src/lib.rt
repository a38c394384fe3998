// Dereferencing, binding and unifying in words: document 01, "Unifying". The array is one worker's own part of the arrays.
// Before a slice of a lent store is lent on, it is taken into a variable: so the check knows it afterwards.
#![tactic(auto)]

ghost use Rattle.std.specs.Prelude.{◌≡◌, ◌+◌, ◌≤◌, ◌<◌, get_or};
ghost use Rattle.model.specs.Memory.{cell_of};
ghost use Rattle.model.specs.Terms.{says, found_said, dereference, argument_of, bind, pairing, unify_pair, unify_words, unify_head};
ghost use Rattle.terms.specs.Stores.{stored, SameStore};

use model::{CellAddr, Clash, Found, Pairing, VarNo};

// What unifying changes: a worker's array, and the cells and trail words of all slots.
#[derive(Drop)]
pub struct Store<'a> {
    pub array: &'a mut [u32],
    pub cells: &'a mut [u32],
    pub trail: &'a mut [u32],
}

// The child that is made: its slot, and the number of its first variable.
#[derive(Clone, Copy)]
pub struct Child {
    pub slot: u32,
    pub base: u32,
}

// What a cell says where nothing is bound there.
const UNBOUND: u32 = 0;

// What a cell says: its own VNO stands for the array word at its number.
fn says(array: &[u32], cells: &[u32], at: CellAddr) -> u32
    ensures { result ≡ says array.now cells.now at.0 }
{
    let cell = words::word_at(cells, at.0 as usize);
    if words::tag(cell) != words::VNO_TAG {
        return cell;
    }
    words::word_at(array, words::value(cell) as usize)
}

// Where what a cell says is no REF.
#[tactic(auto, unfolding(model::specs::Terms::found_said))]
fn found(cells: &[u32], said: u32, at: CellAddr) -> Found
    ensures { result ≡ found_said cells.now said at.0 }
{
    if said != UNBOUND {
        return Found::Constant(words::value(said));
    }
    let number = words::value(words::word_at(cells, at.0 as usize));
    Found::Unbound(VarNo(number), at)
}

// What a cell leads to. A REF is to a lower number, so there are at most as many as numbers; past them there would be no answer.
pub fn dereference(array: &[u32], cells: &[u32], start: CellAddr) -> Found
    ensures { result ≡ dereference 2048 array.now cells.now start.0 }
{
    let mut at = start;
    for _ in 0..2048_u32 {
        let said = says(array, cells, at);
        if words::tag(said) != words::REF_TAG {
            return found(cells, said, at);
        }
        at = CellAddr(words::value(said));
    }
    Found::Constant(0)
}

// An argument word of a slot's clause, dereferenced.
#[tactic(auto, unfolding(model::specs::Terms::argument_of))]
pub fn argument_of(array: &[u32], cells: &[u32], slot: u32, word: u32) -> Found
    requires { slot < 65536 }
    ensures { result ≡ argument_of array.now cells.now slot word }
{
    if words::op(word) != words::VAR_OP {
        return Found::Constant(words::constant(word));
    }
    let at = 32 * slot + words::variable_number(word);
    dereference(array, cells, CellAddr(at))
}

// Binds a variable that was found unbound, for a child in a slot: into array and trail where it is conditional, else into its cell.
#[tactic(auto, unfolding(model::specs::Terms::bind))]
fn bind(
    store: &mut Store<'_>,
    child: Child,
    count: u32,
    number: VarNo,
    address: CellAddr,
    word: u32,
) -> Result<u32, Clash>
    requires { count < 65536 }
    ensures did { stored store.new result ≡ bind child.slot child.base store.old.array.now store.old.cells.now store.old.trail.now count number address word }
    ensures lent { SameStore store.old store.new }
{
    if child.base <= number.0 {
        let cells = &mut *store.cells;
        words::put(cells, address.0 as usize, word);
        return Ok(count);
    }
    let array = &mut *store.array;
    let trail = &mut *store.trail;
    let at = 32 * child.slot as usize + 2 * count as usize;
    words::put(array, number.0 as usize, word);
    words::put(trail, at, number.0);
    words::put(trail, at + 1, word);
    Ok(count + 1)
}

// What unifying two dereferenced arguments comes to, by their cases.
#[tactic(auto, unfolding(model::specs::Terms::pairing))]
fn pairing(a: Found, b: Found) -> Pairing
    ensures { result ≡ pairing a b }
{
    match (a, b) {
        (Found::Constant(x), Found::Constant(y)) if x == y => Pairing::Nothing,
        (Found::Constant(_), Found::Constant(_)) => Pairing::Clash,
        (Found::Constant(x), Found::Unbound(n, at)) => {
            Pairing::Binds(n, at, memory::value_word(words::CON_TAG, x))
        }
        (Found::Unbound(n, at), Found::Constant(y)) => {
            Pairing::Binds(n, at, memory::value_word(words::CON_TAG, y))
        }
        (Found::Unbound(n, _), Found::Unbound(m, _)) if n.0 == m.0 => Pairing::Nothing,
        (Found::Unbound(n, at), Found::Unbound(m, other)) if n.0 < m.0 => {
            Pairing::Binds(m, other, memory::value_word(words::REF_TAG, at.0))
        }
        (Found::Unbound(n, at), Found::Unbound(_, other)) => {
            Pairing::Binds(n, at, memory::value_word(words::REF_TAG, other.0))
        }
    }
}

#[tactic(auto, unfolding(model::specs::Terms::unify_pair))]
fn unify_pair(store: &mut Store<'_>, child: Child, count: u32, pair: Pairing) -> Result<u32, Clash>
    requires { count < 65536 }
    ensures did { stored store.new result ≡ unify_pair child.slot child.base store.old.array.now store.old.cells.now store.old.trail.now count pair }
    ensures lent { SameStore store.old store.new }
{
    match pair {
        Pairing::Nothing => Ok(count),
        Pairing::Clash => Err(Clash(count)),
        Pairing::Binds(number, address, word) => bind(store, child, count, number, address, word),
    }
}

// A head argument with a goal's argument, both dereferenced.
#[tactic(auto, unfolding(model::specs::Terms::unify_words))]
fn unify_words(
    store: &mut Store<'_>,
    child: Child,
    slot: u32,
    head: u32,
    goal: u32,
    count: u32,
) -> Result<u32, Clash>
    requires { (child.slot < 65536) × (slot < 65536) × (count < 65536) }
    ensures did { stored store.new result ≡ unify_words child.slot child.base slot head goal store.old.array.now store.old.cells.now store.old.trail.now count }
    ensures lent { SameStore store.old store.new }
{
    let array = &mut *store.array;
    let cells = &mut *store.cells;
    let a = argument_of(array, cells, child.slot, head);
    let b = argument_of(array, cells, slot, goal);
    unify_pair(store, child, count, pairing(a, b))
}

// Head arguments with the first goal's, left to right, into a child of no entries yet.
pub fn unify_head(
    image: &[u32],
    words: &[u32],
    store: &mut Store<'_>,
    child: Child,
    slot: u32,
    head: usize,
    goal: usize,
    arity: u32,
) -> Result<u32, Clash>
    requires { (child.slot < 65536) × (slot < 65536) × (head < 1099511627776) × (goal < 1099511627776) × (arity < 65536) }
    ensures did { stored store.new result ≡ unify_head arity image.now words.now child.slot child.base slot head goal store.old.array.now store.old.cells.now store.old.trail.now 0 }
    ensures lent { SameStore store.old store.new }
{
    let mut count: u32 = 0;
    for k in 0..arity {
        let ours = words::word_at(image, head + k as usize);
        let theirs = words::word_at(words, goal + k as usize);
        count = unify_words(store, child, slot, ours, theirs, count)?;
    }
    Ok(count)
}
