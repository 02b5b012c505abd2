// The words of a stored book.
#![tactic(auto)]

pub mod packing;
pub mod unpacking;
