// How many children each node has, in a table beside the memory: document 01, "Has N a child", rules 1 to 5 of the steps.
// With the table that question is one word, and is not sought among all slots at every dead node. Assumes nothing.
#![tactic(auto)]

ghost use Rattle.std.specs.Prelude.{◌≡◌, ◌*◌, get_or, cond, eqb, Some, None};
ghost use Rattle.model.specs.Steps.{has_child};
ghost use Rattle.children.specs.Children.{used_of, parent_of, Counted, lost, gained, followed};

use model::Kind;

const ROOT: u32 = 0;

// Has a node a child: its count, and a search where the table has no word for it.
pub fn has_child(nodes: &[u32], children: &[u32], node: u32) -> bool
    requires { Counted nodes.now children.now }
    ensures { result ≡ has_child nodes.now node }
{
    let at = node as usize;
    if at < children.len() {
        return children[at] != 0;
    }
    memory::has_child(nodes, node)
}

// The table follows a slot whose word 0 has changed: what it was before is given, what it is now stands in the memory.
// The root is nobody's child, and there is no slot past the last.
#[tactic(auto, unfolding(crate::specs::Children::followed))]
pub fn follow(nodes: &[u32], children: &mut [u32], slot: u32, before: u32)
    ensures { children.new ≡ followed children.old slot before (get_or nodes.now (4 * slot) 0) }
{
    if slot == ROOT || 64 <= slot {
        return;
    }
    lose(children, before);
    let after = words::word_at(nodes, 4 * slot as usize);
    gain(children, after);
}

// The table made anew, whatever it held: each slot's child is counted, from the first slot after the root on.
pub fn tally(nodes: &[u32], children: &mut [u32])
    ensures { Counted nodes.now children.new }
{
    memory::wipe(children);
    for slot in 1..64 {
        gain(children, words::word_at(nodes, 4 * slot));
    }
}

// The slot whose child a slot is by its word 0, none if it is free.
fn parent_named(word: u32) -> Option<usize>
    ensures { result ≡ cond (eqb (used_of word) 1) (Some (parent_of word)) None }
{
    if words::read(word, Kind::Node0, 0) != 1 {
        return None;
    }
    Some(words::read(word, Kind::Node0, 1) as usize)
}

// One child less at the parent that a used slot's word 0 names.
#[tactic(auto, unfolding(crate::specs::Children::lost))]
fn lose(children: &mut [u32], word: u32)
    ensures { children.new ≡ lost children.old word }
{
    if let Some(up) = parent_named(word) {
        let count = words::word_at(children, up);
        words::put(children, up, count.saturating_sub(1));
    }
}

// One child more. A right count is below 64, as there are no more slots; the test is for tables that are not.
#[tactic(auto, unfolding(crate::specs::Children::gained))]
fn gain(children: &mut [u32], word: u32)
    ensures { children.new ≡ gained children.old word }
{
    if let Some(up) = parent_named(word) {
        let count = words::word_at(children, up);
        if count < 64 {
            words::put(children, up, count + 1);
        }
    }
}
