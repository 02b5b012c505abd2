// The stack evaluator (01, "The stack evaluator") over arrays.
#![tactic(auto)]

pub mod reduce;
pub mod run;
pub mod setting;
pub mod shift;
pub mod step;
