// The cluster.
use protocol::inner::Inner;

// A quorum rule, a rotation, a book and seats.
#[derive(Drop)]
pub struct Cluster<R, T> {
    pub(crate) rule: R,
    pub(crate) rotation: T,
    pub(crate) inner: Inner,
}
