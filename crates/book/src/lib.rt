// The book: blocks, letters, and what may enter.
#![tactic(auto)]

mod admission;
mod base;
pub mod block;
mod certificate;
mod chain;
mod changes;
pub mod design;
pub mod pages;
mod questions;
mod walks;
