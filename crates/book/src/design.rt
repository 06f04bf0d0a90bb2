// What the book asks of its cluster.
use quorum::seats::SeatSet;

// The rule, the rotation and the open seats that a cluster is made from, lent for a call.
#[derive(Drop)]
pub struct Design<'a, R, T> {
    pub rule: &'a R,
    pub rotation: &'a T,
    pub open_set: SeatSet,
}
