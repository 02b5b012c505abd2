// The two calls by arrays of a room: a text read, or a message answered, where the arrays have room for the book.
#![tactic(auto)]

pub mod evaluating;
pub mod reading;
pub mod rooms;
pub mod tokens;
