// What the moves of a message go by: its top, the action, the two stacks with their records, the rows, what a reduction leaves.
#![tactic(auto)]

pub mod action;
pub mod left;
pub mod lists;
pub mod pushes;
pub mod records;
pub mod rows;
pub mod spans;
pub mod stacks;
pub mod top;
