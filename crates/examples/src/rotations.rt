// The two rotations: who leads which view, and when a seat's turn comes.
use crate::common::list;
use refusal::Refusal;
use rotation::listed::Listed;
use rotation::robin::RoundRobin;
use rotation::turns::Rotation;
use std::process::Abort;
use std::test::Fail;

// The leader of a view.
fn leads<T: Rotation>(rt: &impl Abort, turns: &T, told: &[(u32, Option<u8>)]) {
    for &(view, seat) in told {
        assert_eq!(rt; turns.leader(view), seat);
    }
}

// A seat, a view, and the seat's next turn from there.
fn next<T: Rotation>(rt: &impl Abort, turns: &T, told: &[(u8, u32, Option<u32>)]) {
    for &(seat, from, view) in told {
        assert_eq!(rt; turns.next_turn(seat, from), view);
    }
}

#[test]
fn round_robin(rt: HostRuntime) -> Result<(), Fail> {
    let turns = RoundRobin::new(4)?;
    leads(
        &rt,
        &turns,
        &[
            (1, Some(1)),
            (4, Some(0)),
            (1_000_000, Some(0)),
            (1_000_001, None),
            (0, None),
        ],
    );
    next(
        &rt,
        &turns,
        &[
            (0, 1, Some(4)),
            (1, 1, Some(1)),
            (0, 1_000_000, Some(1_000_000)),
            (1, 999_999, None),
            (4, 1, None),
            (0, 0, None),
        ],
    );
    Ok(())
}

#[test]
fn round_robin_alone_and_named(rt: HostRuntime) -> Result<(), Fail> {
    leads(&rt, &RoundRobin::new(1)?, &[(7, Some(0))]);
    leads(&rt, &RoundRobin::starting_at(4, 3)?, &[(2, Some(0))]);
    for turns in [
        RoundRobin::new(0),
        RoundRobin::new(65),
        RoundRobin::starting_at(4, 4),
    ] {
        assert_eq!(rt; turns.err(), Some(Refusal::RotationOutOfRange));
    }
    Ok(())
}

#[test]
fn listed(rt: HostRuntime) -> Result<(), Fail> {
    let turns = list(rt.alloc(), 4, &[2, 0, 2])?;
    leads(&rt, &turns, &[(1, Some(2)), (5, Some(0))]);
    next(
        &rt,
        &turns,
        &[
            (0, 3, Some(5)),
            (2, 3, Some(3)),
            (1, 1, None),
            (0, 1_000_000, None),
        ],
    );
    Ok(())
}

#[test]
fn lists_out_of_range(rt: HostRuntime) -> Result<(), Fail> {
    let heap = rt.alloc();
    leads(&rt, &list(heap, 1, &[0; 256])?, &[(300, Some(0))]);
    let lists: [(u8, &[u8]); 5] = [
        (4, &[]),
        (4, &[0; 257]),
        (4, &[0, 4]),
        (0, &[0]),
        (65, &[0]),
    ];
    for (seats, order) in lists {
        let turns = Listed::new(seats, order.to_vec(heap)?);
        assert_eq!(rt; turns.err(), Some(Refusal::RotationOutOfRange));
    }
    Ok(())
}
