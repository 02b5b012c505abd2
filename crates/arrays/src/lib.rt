// Arrays for short and for long books: a text read, or a message answered, by the shorter ones where they have room.
#![tactic(auto)]

pub mod evaluating;
pub mod reading;

// The longest text for which arrays for a short book are tried.
pub const SHORT_TEXT: usize = 4096;
