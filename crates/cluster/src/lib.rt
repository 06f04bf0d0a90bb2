// The cluster: seats that keep the rules, seats that may say anything, and one book.
#![tactic(auto)]

pub mod calls;
pub mod cluster;
pub mod open;
pub mod questions;
