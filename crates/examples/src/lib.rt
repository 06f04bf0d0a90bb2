// Worked examples of every layer, as tests.
#![tactic(auto)]

#[cfg(test)]
mod books;
#[cfg(test)]
mod clusters;
#[cfg(test)]
mod common;
#[cfg(test)]
mod quorums;
#[cfg(test)]
mod refusals;
#[cfg(test)]
mod rotations;
