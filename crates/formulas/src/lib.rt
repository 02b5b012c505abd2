// The formulas of definitions: their nodes are kept once each, so that formulas are equal where their numbers are.
#![tactic(auto)]

pub mod formulas;
pub mod interning;
pub mod nodes;
pub mod steps;
pub mod table;
