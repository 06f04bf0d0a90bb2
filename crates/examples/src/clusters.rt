// Four seats by the count rule, of which one may be faulty; view v is led by seat v mod 4.
use book::block::Proposal;
use cluster::cluster::Cluster;
use protocol::call::Call;
use protocol::seat::Seat;
use quorum::count::CountRule;
use quorum::seats::SeatSet;
use refusal::Refusal;
use rotation::robin::RoundRobin;
use std::alloc::Global;
use std::process::Abort;
use std::test::Fail;

type Four = Cluster<CountRule, RoundRobin>;

fn open(heap: Global, open_set: SeatSet) -> Result<Four, Refusal> {
    Cluster::open(heap, CountRule::new(1)?, RoundRobin::new(4)?, open_set)
}

// A proposal on what seats 0, 1 and 2 said.
fn fast(view: u32, parent: u32) -> Call {
    Call::Fast(Proposal {
        view,
        parent,
        payload: 10,
        heard: SeatSet { bits: 7 },
    })
}

// A cluster, and what ends the test where the cluster is not as expected.
#[derive(Drop)]
struct Trial<'a, A> {
    rt: &'a A,
    cluster: Four,
}

impl<A: Abort> Trial<'_, A> {
    // Calls, each with what it is answered.
    fn answers(&mut self, calls: &[(Call, Result<u32, Refusal>)]) {
        for &(call, expected) in calls {
            assert_eq!(self.rt; self.cluster.call(call), expected);
        }
    }

    // What a kept seat remembers: its view, its last vote and its tip.
    fn remembers(&self, seat: u8, view: u32, vote: u32, tip: u32) {
        assert_eq!(self.rt; self.cluster.seat(seat), Some(Seat { view, vote, tip }));
    }

    // The blocks that a kept seat has committed, by their place.
    fn commits(&self, seat: u8, told: &[(u32, Option<u32>)]) {
        for &(k, block) in told {
            assert_eq!(self.rt; self.cluster.commit(seat, k), block);
        }
    }
}

// All seats in one program. Seats 0, 1 and 2 keep the rules; seat 3 is open, and says what the rehearsal has it say.
#[test]
fn a_rehearsal(rt: HostRuntime) -> Result<(), Fail> {
    let cluster = open(rt.alloc(), SeatSet { bits: 8 })?;
    let mut trial = Trial { rt: &rt, cluster };
    trial.answers(&[
        // block 1 of view 1, on the first block
        (fast(1, 0), Ok(1)),
        // seat 0 votes for it, and not again
        (Call::Show { seat: 0, block: 1 }, Ok(1)),
        (Call::Show { seat: 0, block: 1 }, Ok(0)),
        // the open seat's vote is the second
        (Call::Vote { seat: 3, block: 1 }, Ok(2)),
        // seat 0 leaves for view 2, and its letter names block 1
        (Call::Expire { seat: 0, view: 2 }, Ok(1)),
        // seats 1 and 2 have not voted
        (fast(2, 1), Err(Refusal::HeardSeatSilent)),
    ]);
    trial.remembers(0, 2, 1, 0);
    Ok(())
}

// The same code on the box of seat 2. All other seats are open: what their boxes send is entered as it arrives, and
// only seat 2 acts by the rules.
#[test]
fn one_kept_seat_on_a_box(rt: HostRuntime) -> Result<(), Fail> {
    let cluster = open(rt.alloc(), SeatSet { bits: 4 }.everyone_but(4))?;
    let mut trial = Trial { rt: &rt, cluster };
    trial.answers(&[
        (fast(1, 0), Ok(1)),
        (Call::Vote { seat: 0, block: 1 }, Ok(1)),
        (Call::Vote { seat: 1, block: 1 }, Ok(2)),
        (Call::Show { seat: 2, block: 1 }, Ok(1)),
        // block 2, on three votes for block 1
        (fast(2, 1), Ok(2)),
        (Call::Vote { seat: 0, block: 2 }, Ok(1)),
        (Call::Vote { seat: 1, block: 2 }, Ok(2)),
        (Call::Show { seat: 2, block: 2 }, Ok(1)),
        // block 3 commits block 1, as seat 2 learns when it is shown
        (fast(3, 2), Ok(3)),
        (Call::Show { seat: 2, block: 3 }, Ok(1)),
    ]);
    // the first block and block 1
    trial.commits(2, &[(0, Some(0)), (1, Some(1)), (2, None)]);
    Ok(())
}
