// The lines of states read into arrays: kernel lines and go lines.
#![tactic(auto)]

pub mod goes;
pub mod kernels;
pub mod lookahead;
pub mod lookaheads;
