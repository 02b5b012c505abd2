// What the check of a partial state changes.
use formulas::table::Nodes;

// A slot has the number of an attribute's formula plus one, or 0. A byte is full if the definition in its line is done.
#[derive(Drop)]
pub struct Work<'a> {
    pub slots: [u32; 16],
    pub done: [u8; 128],
    pub nodes: Nodes<'a>,
}
