// The shared memory as one worker has it, lent in one piece: document 01, "The steps".

// The memory as a worker has it: its own array in the place of all arrays.
// Before a slice of a lent view is lent on, it is taken into a variable, as by `let nodes = &mut *view.nodes;`: so the check knows it afterwards.
#[derive(Drop)]
pub struct View<'a> {
    pub nodes: &'a mut [u32],
    pub cells: &'a mut [u32],
    pub trail: &'a mut [u32],
    pub array: &'a mut [u32],
    pub workers: &'a mut [u32],
}
