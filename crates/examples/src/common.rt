// What the tests share.
use quorum::weight::WeightRule;
use rotation::listed::Listed;
use std::alloc::Global;
use std::test::Fail;

// The weight rule of these weights.
pub(crate) fn weigh(heap: Global, weights: &[u16]) -> Result<WeightRule, Fail> {
    Ok(WeightRule::new(weights.to_vec(heap)?)?)
}

// The rotation of a number of seats by this list.
pub(crate) fn list(heap: Global, seats: u8, order: &[u8]) -> Result<Listed, Fail> {
    Ok(Listed::new(seats, order.to_vec(heap)?)?)
}
