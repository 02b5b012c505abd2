// A message under a book that is taken: the machine's run over it.
#![tactic(auto)]

pub mod messages;
pub mod sides;
