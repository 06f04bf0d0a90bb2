// A seat of the cluster.

// What a kept seat remembers.
#[derive(Clone, Copy, Debug, PartialEq, Eq)]
pub struct Seat {
    // the view that it is in
    pub view: u32,
    // the last block that it voted for
    pub vote: u32,
    // the latest block that it knows to be committed
    pub tip: u32,
}
