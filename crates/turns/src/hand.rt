// What a worker has at hand through a run, in three tables beside the memory: places of goals and of clauses that were found, and how many children each node has.

// The tables, lent in one piece.
#[derive(Drop)]
pub struct Hand<'a> {
    pub places: &'a mut [u32],
    pub clauses: &'a mut [u32],
    pub children: &'a mut [u32],
}
