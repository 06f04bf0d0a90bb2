// The calls of a cluster, as values.
use book::block::Proposal;
use letters::letter::Letter;

// What can be asked of a cluster.
#[derive(Clone, Copy)]
pub enum Call {
    // a leader's proposal, on votes for its parent
    Fast(Proposal),
    // a leader's proposal, on reports for its view
    Slow(Proposal),
    // a kept seat is shown a block
    Show { seat: u8, block: u32 },
    // a kept seat leaves its view for a later one
    Expire { seat: u8, view: u32 },
    // an open seat votes for a block
    Vote { seat: u8, block: u32 },
    // an open seat writes a letter
    Letter(Letter),
}
