// The plan of a partial state: which definitions set the top cell, and in what order.
#![tactic(auto)]

pub mod members;
pub mod memory;
pub mod planning;
pub mod program;
pub mod slots;
