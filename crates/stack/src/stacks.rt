// The stacks, with room for as many symbols as may stand: each has a state, a cell of 16 words, a record of 33 and its start, and above them stand the
// state and the cell on top.
use book::Book;

#[derive(Drop)]
pub struct Stacks {
    pub states: [u32; Book::MAX_STACK + 1],
    pub cells: [u32; 16 * Book::MAX_STACK + 16],
    pub records: [u32; 33 * Book::MAX_STACK],
    pub starts: [u32; Book::MAX_STACK],
}
