// The items of the states: what the rests of rules begin with and reach, whether they are nullable, and the closures.
#![tactic(auto)]

pub mod closure;
pub mod closures;
pub mod first;
pub mod leads;
pub mod nullable;
pub mod passes;
pub mod reach;
pub mod rests;
pub mod rules;
pub mod suffixes;
pub mod words;
