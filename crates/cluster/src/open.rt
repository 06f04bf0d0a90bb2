// Opening a cluster.
ghost use Rattle.std.specs.Prelude.{◌≡◌};
ghost use Rattle.cluster.specs.Held.{design_of, state_of};
ghost use Rattle.cluster.specs.Opening.{open_reasons, Opening, Opened, SafeIf};
ghost use Rattle.protocol.specs.State.{fresh};

use crate::cluster::Cluster;
use book::pages::Book;
use protocol::inner::Inner;
use quorum::rule::QuorumRule;
use quorum::seats::SeatSet;
use refusal::Refusal;
use rotation::turns::Rotation;
use std::alloc::Global;

impl<R: QuorumRule + Drop, T: Rotation + Drop> Cluster<R, T> {
    // A new cluster, in which the seats of the open set may say anything and all others keep the rules. This alone can
    // want memory. Where the rule tolerates the open set, all that may follow is safe.
    pub fn open(
        heap: Global,
        rule: R,
        rotation: T,
        open_set: SeatSet,
    ) -> Result<Cluster<R, T>, Refusal>
        ensures opening { Opening (open_reasons (R.QuorumRule.seats rule) (T.Rotation.seats rotation) open_set.bits) (λ c. (c.rule ≡ rule) × (c.rotation ≡ rotation) × (state_of R.QuorumRule T.Rotation c ≡ fresh (design_of R.QuorumRule T.Rotation rule rotation open_set.bits))) result }
        ensures safe { Opened (λ c. SafeIf (R.QuorumRule.tolerated rule open_set.bits) (state_of R.QuorumRule T.Rotation c)) result }
    {
        let n = rule.seats();
        if n != rotation.seats() {
            return Err(Refusal::SeatCountsDiffer);
        }
        if !open_set.is_within(n) {
            return Err(Refusal::UnknownSeatInSet);
        }
        let book = Book::new(heap, n)?;
        Ok(Cluster {
            rule,
            rotation,
            inner: Inner::new(book, open_set),
        })
    }
}
