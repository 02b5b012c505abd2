// Conditions 3 to 6 of a book that was read into arrays: its limits, its names, whose attributes it uses, and that it defines them all.
#![tactic(auto)]

pub mod declared;
pub mod defined;
pub mod limits;
pub mod place;
pub mod sound;
