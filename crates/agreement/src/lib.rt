// One formula for each inherited attribute in each partial state (10).
#![tactic(auto)]

pub mod alike;
pub mod check;
pub mod givers;
pub mod one_formula;
pub mod parts;
pub mod single;
pub mod work;
