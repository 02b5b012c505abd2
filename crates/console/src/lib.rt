// What the desk program reads and writes: a book's text and token lines, taken byte by byte, and the lines of an answer.
#![tactic(auto)]

pub mod input;
pub mod output;
