// The conditions on the states of a book: kernel rules (7), go rules (8), actions and conflicts (9).
#![tactic(auto)]

pub mod actions;
pub mod go_rules;
pub mod go_table;
pub mod kernel_rules;
pub mod lefts;
