// The sets of seats, and the two quorum rules.
use crate::common::weigh;
use quorum::count::CountRule;
use quorum::rule::QuorumRule;
use quorum::seats::SeatSet;
use quorum::weight::WeightRule;
use refusal::Refusal;
use std::process::Abort;
use std::test::Fail;

fn of(bits: u64) -> SeatSet {
    SeatSet { bits }
}

#[test]
fn sets_of_seats(rt: HostRuntime) {
    for (told, expected) in [
        (SeatSet::everyone(4), 15),
        (SeatSet::everyone(64), u64::MAX),
        (SeatSet::everyone(200), u64::MAX),
        (of(8).everyone_but(4), 7),
        (of(8).union(of(3)), 11),
    ] {
        assert_eq!(rt; told, of(expected));
    }
    assert_eq!(rt; of(11).count(), 3);
    assert!(rt; of(8).holds(3) && !of(8).holds(2) && !of(8).holds(67));
    assert!(rt; of(8).is_within(4) && !of(8).is_within(3) && of(u64::MAX).is_within(64));
}

// Whether a set of seats is a quorum, and whether it is tolerated.
fn judges<R: QuorumRule>(rt: &impl Abort, rule: &R, told: &[(u64, bool, bool)]) {
    for &(bits, quorum, tolerated) in told {
        let set = of(bits);
        assert_eq!(rt;
            (rule.is_quorum(set), rule.is_tolerated(set)),
            (quorum, tolerated)
        );
    }
}

#[test]
fn one_faulty_seat_of_four(rt: HostRuntime) -> Result<(), Fail> {
    let rule = CountRule::new(1)?;
    assert_eq!(rt; rule.seats(), 4);
    judges(
        &rt,
        &rule,
        &[
            (7, true, false),
            (15, true, false),
            (3, false, false),
            (0, false, true),
            (8, false, true),
            (9, false, false),
            // seat 4 is none of the four
            (23, false, false),
            (16, false, false),
        ],
    );
    Ok(())
}

#[test]
fn limits_of_the_count_rule(rt: HostRuntime) {
    for (faults, seats) in [
        (21, Ok(64)),
        (0, Ok(1)),
        (22, Err(Refusal::FaultsOutOfRange)),
    ] {
        assert_eq!(rt; CountRule::new(faults).map(|rule| rule.seats()), seats);
    }
}

#[test]
fn weights_5_1_1(rt: HostRuntime) -> Result<(), Fail> {
    let rule = weigh(rt.alloc(), &[5, 1, 1])?;
    assert_eq!(rt; rule.seats(), 3);
    judges(
        &rt,
        &rule,
        &[
            (1, true, false),
            (6, false, true),
            // seat 3 is none of the three
            (9, false, false),
            (8, false, false),
        ],
    );
    Ok(())
}

#[test]
fn limits_of_the_weight_rule(rt: HostRuntime) -> Result<(), Fail> {
    let heap = rt.alloc();
    assert_eq!(rt; weigh(heap, &[65535; 32])?.total(), 2097120);
    let lists: [&[u16]; 4] = [&[0; 33], &[1; 33], &[0; 32], &[]];
    for weights in lists {
        let rule = WeightRule::new(weights.to_vec(heap)?);
        assert_eq!(rt; rule.err(), Some(Refusal::WeightsOutOfRange));
    }
    Ok(())
}
