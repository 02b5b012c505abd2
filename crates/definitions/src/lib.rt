// The definitions of attributes read into an array: what a line defines, and its expression in postfix order.
#![tactic(auto)]

pub mod brackets;
pub mod definitions;
pub mod ended;
pub mod expression;
pub mod nodes;
pub mod short;
#[cfg(test)]
mod tests;
