// The limits, from both sides.
use crate::table::{Row, proposal, tell};
use crate::{Fault, table};
use letters::letter::Letter;
use protocol::call::Call;
use quorum::count::CountRule;
use quorum::rule::QuorumRule;

// Two blocks, each shown to the kept seats.
pub(crate) const START: &[Row] = &[
    Row::Leads(Call::Fast(proposal!(1, 0, 7)), 1),
    Row::Shows(1),
    Row::Leads(Call::Fast(proposal!(2, 1, 7)), 2),
    Row::Shows(2),
];

// A letter of the open seat.
pub(crate) const LETTER: Call = Call::Letter(Letter {
    seat: 3,
    view: 5,
    block: 0,
});

// A block of view 3, whose leader is open.
pub(crate) const BLOCK: Call = Call::Fast(proposal!(3, 2, 7));

const LIMITS: &[Row] = &[
    Row::Tells(
        "expire to view 1000001 (expected a refusal, 5): ",
        Call::Expire {
            seat: 0,
            view: 1_000_001,
        },
        "",
    ),
    Row::Tells(
        "expire to view 1000000 (expected 2): ",
        Call::Expire {
            seat: 0,
            view: 1_000_000,
        },
        "",
    ),
    // 255 blocks with those that there are
    Row::Repeats(BLOCK, 252),
    Row::Tells("the 256th block (expected 255): ", BLOCK, ""),
    Row::Tells("one more (expected a refusal, 11): ", BLOCK, ""),
    // 511 letters with seat 0's
    Row::Repeats(LETTER, 510),
    Row::Tells("the 512th letter (expected 512): ", LETTER, ""),
    Row::Tells("one more (expected a refusal, 10): ", LETTER, ""),
];

// The seats of the count rule, and then the rows.
pub(crate) fn play(rt: &HostRuntime) -> Result<(), Fault> {
    println!(rt; "the limits")?;
    for &(before, faults) in &[
        ("seats for 21 faulty ones (expected 64): ", 21),
        ("seats for 22 faulty ones (expected a refusal, 17): ", 22),
    ] {
        let seats = CountRule::new(faults).map(|rule| u32::from(rule.seats()));
        tell(rt, before, seats, "")?;
    }
    table::play(rt, 8, &[START, LIMITS])
}
