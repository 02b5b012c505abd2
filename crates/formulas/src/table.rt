// The arrays of a table of nodes.

// `rows` has four words for each node. `heads` and `nexts` are its buckets, as `interning` says.
#[derive(Drop)]
pub struct Nodes<'a> {
    pub rows: &'a mut [u32],
    pub heads: &'a mut [u32],
    pub nexts: &'a mut [u32],
}
