// The worked runs, in which seat 3 is open.
use crate::table::{Row, proposal};
use crate::{Fault, table};
use letters::letter::Letter;
use protocol::call::Call;

// Blocks 1 and 2, the first of them shown to all.
const RUN_A: &[Row] = &[
    Row::Enters("A1", Call::Fast(proposal!(1, 0, 7)), (1, 0, 0)),
    Row::Shows(1),
    Row::Enters("A2", Call::Fast(proposal!(2, 1, 7)), (2, 1, 0)),
];

// A third block on the votes for the second.
const STRAIGHT: &[Row] = &[
    Row::Shows(2),
    Row::Enters("A3", Call::Fast(proposal!(3, 2, 7)), (3, 2, 1)),
];

// View 2 fails, and view 3 carries on from its proposal.
const FAILED_VIEW: &[Row] = &[
    Row::Leads(Call::Show { seat: 0, block: 2 }, 1),
    Row::Leads(Call::Show { seat: 1, block: 2 }, 1),
    Row::Leads(Call::Expire { seat: 0, view: 3 }, 2),
    Row::Leads(Call::Expire { seat: 1, view: 3 }, 2),
    Row::Leads(Call::Expire { seat: 2, view: 3 }, 1),
    Row::Tells("B1  ", Call::Slow(proposal!(3, 1, 7)), "  (expected 15)"),
    Row::Enters("B2", Call::Slow(proposal!(3, 2, 7)), (3, 1, 0)),
    Row::Shows(3),
    Row::Enters("B3", Call::Fast(proposal!(4, 3, 7)), (4, 3, 1)),
];

// The open leader of view 3 makes two blocks, the votes are split, and view 4 passes.
const SPLIT: &[Row] = &[
    Row::Shows(2),
    Row::Leads(Call::Fast(proposal!(3, 2, 7)), 3),
    Row::Leads(Call::Fast(proposal!(3, 2, 7)), 4),
    Row::Leads(Call::Show { seat: 0, block: 3 }, 1),
    Row::Leads(Call::Show { seat: 1, block: 3 }, 1),
    Row::Leads(Call::Show { seat: 2, block: 4 }, 1),
    Row::Leads(Call::Expire { seat: 0, view: 5 }, 3),
    Row::Leads(Call::Expire { seat: 1, view: 5 }, 3),
    Row::Leads(Call::Expire { seat: 2, view: 5 }, 4),
];

const OTHER_BRANCH: &[Row] = &[
    Row::Enters("C1", Call::Slow(proposal!(5, 4, 7)), (5, 2, 1)),
    Row::Shows(5),
    Row::Enters("C2", Call::Fast(proposal!(6, 5, 7)), (6, 5, 2)),
];

const REPORTED: &[Row] = &[
    Row::Leads(
        Call::Letter(Letter {
            seat: 3,
            view: 5,
            block: 3,
        }),
        4,
    ),
    Row::Enters("D1", Call::Slow(proposal!(5, 3, 15)), (5, 3, 2)),
    Row::Shows(5),
    Row::Enters("D2", Call::Fast(proposal!(6, 5, 7)), (6, 5, 2)),
];

// A title, and the parts of the run.
const RUNS: &[(&str, &[&[Row]])] = &[
    ("straight on", &[RUN_A, STRAIGHT]),
    ("a failed view", &[RUN_A, FAILED_VIEW]),
    (
        "two blocks of one view, and the second is carried on",
        &[RUN_A, SPLIT, OTHER_BRANCH],
    ),
    (
        "two blocks of one view, and a quorum reports the first",
        &[RUN_A, SPLIT, REPORTED],
    ),
];

// Each run on a new cluster, under its title.
pub(crate) fn play(rt: &HostRuntime) -> Result<(), Fault> {
    for &(title, parts) in RUNS {
        println!(rt; "{title}")?;
        table::play(rt, 8, parts)?;
    }
    Ok(())
}
