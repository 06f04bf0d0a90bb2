// A rehearsal, record by record.
ghost use Rattle.std.specs.Prelude.{◌≡◌, true};
ghost use Rattle.cluster.specs.Opening.{Opening};
ghost use Rattle.protocol.specs.State.{fresh};
ghost use Rattle.records.specs.declared.rehearsal.Stage.TheVariants.{New, Unopened};
ghost use Rattle.records.specs.Rehearsing.{rehearsed, rehearse_reasons, state_in, started_in, cluster_in, Opens, Plays};

use crate::record::Record;
use cluster::cluster::Cluster;
use quorum::count::CountRule;
use quorum::rule::QuorumRule;
use quorum::seats::SeatSet;
use refusal::Refusal;
use rotation::robin::RoundRobin;
use rotation::turns::Rotation;
use std::alloc::Global;

// A cluster by the count rule for so many faulty seats, and the round robin with no first seat named.
fn open(
    heap: Global,
    faults: u8,
    open_set: SeatSet,
) -> Result<Cluster<CountRule, RoundRobin>, Refusal>
    ensures { Opening (rehearse_reasons faults open_set.bits) (λ c. (c.rule.faults ≡ faults) × (state_in c ≡ fresh (rehearsed faults open_set.bits))) result }
{
    let rule = CountRule::new(faults)?;
    let rotation = RoundRobin::new(rule.seats())?;
    Cluster::open(heap, rule, rotation, open_set)
}

// How far a rehearsal is.
#[derive(Drop)]
enum Stage {
    // no record was read
    New,
    // records were read, and the first opened no cluster
    Unopened,
    // the cluster that the first record opened
    Open(Cluster<CountRule, RoundRobin>),
}

// What changes the stage stands in functions of its own: the room for a cluster that each needs is cleared where it is
// called, and not at every record.
impl Stage {
    // Opens a cluster by the first record.
    fn start(&mut self, heap: Global, faults: u8, open_set: SeatSet) -> Result<u32, Refusal>
        ensures { Opens faults open_set.bits (cluster_in self.old) result (cluster_in self.new) }
    {
        let cluster = open(heap, faults, open_set)?;
        let seats = cluster.seats();
        *self = Stage::Open(cluster);
        Ok(u32::from(seats))
    }

    // A first record opened no cluster.
    fn leave_unopened(&mut self)
        ensures { self.new ≡ Unopened }
    {
        *self = Stage::Unopened;
    }
}

// A rehearsal: how far it is, and its cluster, once that is open.
#[derive(Drop)]
pub struct Rehearsal {
    stage: Stage,
}

impl Rehearsal {
    // A rehearsal of which no record was read.
    pub fn new() -> Rehearsal
        ensures { result.stage ≡ New }
    {
        Rehearsal { stage: Stage::New }
    }

    // Opens by a first record, and calls the cluster by a later one; any other is out of place.
    fn answer(&mut self, heap: Global, record: Result<Record, Refusal>) -> Result<u32, Refusal>
        ensures { Plays «record» (started_in self.old.stage) (cluster_in self.old.stage) result (cluster_in self.new.stage) }
    {
        match (record?, &mut self.stage) {
            (Record::Open { faults, open_set }, stage @ Stage::New) => {
                stage.start(heap, faults, open_set)
            }
            (Record::Call(call), Stage::Open(cluster)) => cluster.call(call),
            _ => Err(Refusal::RecordOutOfPlace),
        }
    }

    // Plays one record, as the reader gave it. Gives the number of seats for an opening, else what the call gives.
    pub fn play(&mut self, heap: Global, record: Result<Record, Refusal>) -> Result<u32, Refusal>
        ensures plays { Plays «record» (started_in self.old.stage) (cluster_in self.old.stage) result (cluster_in self.new.stage) }
        ensures started { started_in self.new.stage ≡ true }
    {
        let answer = self.answer(heap, record);
        if matches!(self.stage, Stage::New) {
            self.stage.leave_unopened();
        }
        answer
    }
}
