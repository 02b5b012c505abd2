// From the text of a book to its tables, or to its refusal.
#![tactic(auto)]

pub mod book_lines;
pub mod compile;
pub mod states;
pub mod tables;
