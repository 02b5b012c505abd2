// The items of partial states, and which inherited attributes' definitions are of them.
#![tactic(auto)]

pub mod due;
pub mod masks;
pub mod owned;
pub mod skips;
