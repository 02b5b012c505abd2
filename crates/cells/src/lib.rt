// The values of definitions over the machine's two stacks, and the cell that a move sets.
#![tactic(auto)]

pub mod cells;
pub mod leaves;
pub mod values;
