// Sets of seats, and the rules that say which of them decide.
#![tactic(auto)]

pub mod count;
pub mod rule;
pub mod seats;
pub mod weight;
