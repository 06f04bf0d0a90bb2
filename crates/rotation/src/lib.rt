// Who leads each view.
#![tactic(auto)]

pub mod listed;
pub mod robin;
pub mod turns;
