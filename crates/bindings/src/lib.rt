// Condition 21, a slot's cells and trail: document 01, "Refused calls", from "a cell past the variables" to "none at the root".
#![tactic(auto)]

ghost use Rattle.std.specs.Prelude.{◌≡◌, not, ◌||◌, ◌-◌, ◌<◌, eqb};
ghost use Rattle.model.specs.Memory.{entries};
ghost use Rattle.model.specs.Damage.{each, zeros, on_path, owner_of, ref_sound, value_sound, cell_sound, not_among, not_above, vno_at, entry_sound, trail_sound};

use model::Kind;

// The tree as it is stored: the node records, the variables' cells and the trails.
#[derive(Clone, Copy)]
pub struct Tree<'a> {
    pub nodes: &'a [u32],
    pub cells: &'a [u32],
    pub trail: &'a [u32],
}

// So many words from a place on are 0.
pub fn zeros(words: &[u32], start: usize, count: u32) -> bool
    requires { start < 1099511627776 }
    ensures { result ≡ zeros count words.now start }
{
    let end = words.len().min(start + count as usize);
    words[start.min(end)..end].iter().all(|word| *word == 0)
}

// A slot is on the path to a slot, climbing at most so often.
fn on_path(nodes: &[u32], start: u32, other: u32, most: u32) -> bool
    ensures { result ≡ on_path most nodes.now start other }
{
    let mut slot = start;
    for _ in 0..most {
        if slot == other {
            return true;
        }
        slot = memory::parent(nodes, slot);
    }
    slot == other
}

// The slot on the path to a slot that has the variable with a number.
fn owner_of(nodes: &[u32], start: u32, number: u32, most: u32) -> u32
    ensures { result ≡ owner_of most nodes.now start number }
{
    let mut slot = start;
    for _ in 0..most {
        if memory::base(nodes, slot) <= number {
            return slot;
        }
        slot = memory::parent(nodes, slot);
    }
    slot
}

// An address is that of a lower-numbered variable's cell on the path to a slot.
#[tactic(auto, unfolding(model::specs::Damage::ref_sound))]
fn ref_sound(nodes: &[u32], slot: u32, number: u32, address: u32) -> bool
    ensures { result ≡ ref_sound nodes.now slot number address }
{
    let owner = address / 32;
    let variable = address % 32;
    address < 2048
        && variable < memory::own_variables(nodes, owner)
        && memory::base(nodes, owner) + variable < number
        && on_path(nodes, slot, owner, memory::depth(nodes, slot))
}

// A word is a CON that a CON word holds, or a REF to a lower-numbered variable's cell on the path to a slot.
#[tactic(auto, unfolding(model::specs::Damage::value_sound))]
fn value_sound(nodes: &[u32], slot: u32, number: u32, word: u32) -> bool
    ensures { result ≡ value_sound nodes.now slot number word }
{
    let tag = words::read(word, Kind::Value, 0);
    let value = words::read(word, Kind::Value, 1);
    if tag == words::CON_TAG {
        return value < 268435456;
    }
    tag == words::REF_TAG && ref_sound(nodes, slot, number, value)
}

// A number is none of a slot's first entries.
fn not_among(trail: &[u32], slot: u32, number: u32, count: u32) -> bool
    ensures { result ≡ not_among count trail.now slot number 0 }
{
    (0..count).all(|entry| {
        let at = 32 * slot as usize + 2 * entry as usize;
        words::word_at(trail, at) != number
    })
}

impl Tree<'_> {
    // A cell past the variables is 0, any other is its own VNO, a CON or a REF.
    #[tactic(auto, unfolding(model::specs::Damage::cell_sound))]
    fn cell_sound(self, slot: u32, variable: u32) -> bool
        requires { variable < 32 }
        ensures { result ≡ cell_sound self.entry.nodes.now self.entry.cells.now slot variable }
    {
        let word = words::word_at(self.cells, 32 * slot as usize + variable as usize);
        if memory::own_variables(self.nodes, slot) <= variable {
            return word == 0;
        }
        let number = memory::base(self.nodes, slot) + variable;
        word == memory::value_word(words::VNO_TAG, number)
            || value_sound(self.nodes, slot, number, word)
    }

    // All cells of a slot.
    pub fn cells_sound(self, slot: u32) -> bool
        ensures { result ≡ each 32 (cell_sound self.entry.nodes.now self.entry.cells.now slot) 0 }
    {
        (0..32).all(|variable| self.cell_sound(slot, variable))
    }

    // A number is trailed at no slot above, climbing at most so often.
    fn not_above(self, start: u32, number: u32, most: u32) -> bool
        ensures { result ≡ not_above most self.entry.nodes.now self.entry.trail.now start number }
    {
        let mut slot = start;
        for _ in 0..most {
            slot = memory::parent(self.nodes, slot);
            if !not_among(self.trail, slot, number, memory::entries(self.nodes, slot)) {
                return false;
            }
        }
        true
    }

    // A slot's cell for the variable with a number is its VNO.
    #[tactic(auto, unfolding(model::specs::Damage::vno_at))]
    fn vno_at(self, owner: u32, number: u32) -> bool
        ensures { result ≡ vno_at self.entry.nodes.now self.entry.cells.now owner number }
    {
        let variable = number.saturating_sub(memory::base(self.nodes, owner)) as usize;
        words::word_at(self.cells, 32 * owner as usize + variable)
            == memory::value_word(words::VNO_TAG, number)
    }

    // A trail entry: its number, its number's cell and its value.
    #[tactic(auto, unfolding(model::specs::Damage::entry_sound))]
    fn entry_sound(self, slot: u32, entry: u32) -> bool
        ensures { result ≡ entry_sound self.entry.nodes.now self.entry.cells.now self.entry.trail.now slot entry }
    {
        let at = 32 * slot as usize + 2 * entry as usize;
        let number = words::word_at(self.trail, at);
        let depth = memory::depth(self.nodes, slot);
        number < memory::base(self.nodes, slot)
            && not_among(self.trail, slot, number, entry)
            && self.not_above(slot, number, depth)
            && self.vno_at(owner_of(self.nodes, slot, number, depth), number)
            && value_sound(self.nodes, slot, number, words::word_at(self.trail, at + 1))
    }

    // All trail entries of a slot.
    fn entries_sound(self, slot: u32) -> bool
        ensures { result ≡ each (entries self.entry.nodes.now slot) (entry_sound self.entry.nodes.now self.entry.cells.now self.entry.trail.now slot) 0 }
    {
        (0..memory::entries(self.nodes, slot)).all(|entry| self.entry_sound(slot, entry))
    }

    // A slot's trail: none at the root, its entries, and 0 past them.
    #[tactic(auto, unfolding(model::specs::Damage::trail_sound))]
    pub fn trail_sound(self, slot: u32) -> bool
        ensures { result ≡ trail_sound self.entry.nodes.now self.entry.cells.now self.entry.trail.now slot }
    {
        let count = memory::entries(self.nodes, slot);
        let end = 32 * slot as usize + 2 * count as usize;
        (slot != 0 || count == 0)
            && self.entries_sound(slot)
            && zeros(self.trail, end, 32 - 2 * count)
    }
}
