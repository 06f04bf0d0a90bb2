// Letters, and what leaders are told by them.
#![tactic(auto)]

pub mod laws;
pub mod letter;
pub mod reports;
