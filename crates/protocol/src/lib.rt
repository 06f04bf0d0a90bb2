// The protocol: what each call answers and changes, and what holds of every run.
#![tactic(auto)]

pub mod acts;
pub mod call;
pub mod inner;
pub mod law;
pub mod seat;
