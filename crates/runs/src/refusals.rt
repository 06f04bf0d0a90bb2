// Every refusal once.
use crate::limits::{BLOCK, LETTER, START};
use crate::table::{Row, open, proposal, refused};
use crate::{Fault, table};
use letters::letter::Letter;
use protocol::call::Call;
use quorum::count::CountRule;
use quorum::weight::WeightRule;
use records::reader::Reader;
use records::rehearsal::Rehearsal;
use refusal::Refusal;
use rotation::robin::RoundRobin;

// Refused with two blocks in the book, and then with as many letters and blocks as it holds.
const CALLS: &[Row] = &[
    Row::Refuses(Refusal::NoSuchSeat, Call::Show { seat: 4, block: 1 }),
    Row::Refuses(Refusal::NoSuchBlock, Call::Show { seat: 0, block: 9 }),
    Row::Refuses(Refusal::ViewOutOfRange, Call::Expire { seat: 0, view: 0 }),
    Row::Refuses(Refusal::SeatIsKept, Call::Vote { seat: 0, block: 1 }),
    Row::Refuses(Refusal::SeatIsOpen, Call::Show { seat: 3, block: 1 }),
    Row::Refuses(Refusal::ViewNotAboveSeat, Call::Expire { seat: 0, view: 2 }),
    Row::Refuses(
        Refusal::BlockNotBelowLetter,
        Call::Letter(Letter {
            seat: 3,
            view: 1,
            block: 1,
        }),
    ),
    Row::Refuses(Refusal::LeaderHasProposed, Call::Fast(proposal!(2, 1, 7))),
    Row::Refuses(Refusal::HeardNoQuorum, Call::Fast(proposal!(3, 2, 3))),
    Row::Refuses(Refusal::HeardSeatSilent, Call::Fast(proposal!(3, 2, 15))),
    Row::Refuses(Refusal::ParentUnfit, Call::Fast(proposal!(4, 2, 7))),
    Row::Repeats(LETTER, 512),
    Row::Refuses(Refusal::LettersFull, Call::Expire { seat: 0, view: 5 }),
    Row::Repeats(BLOCK, 253),
    Row::Refuses(Refusal::BlocksFull, BLOCK),
];

// With three open seats, which the rule does not tolerate, two branches are committed, and seat 0 is shown both.
const CONFLICT: &[Row] = &[
    Row::Leads(Call::Fast(proposal!(1, 0, 14)), 1),
    Row::Elects(1),
    Row::Leads(Call::Fast(proposal!(1, 0, 14)), 2),
    Row::Elects(2),
    Row::Leads(Call::Fast(proposal!(2, 1, 14)), 3),
    Row::Elects(3),
    Row::Leads(Call::Fast(proposal!(2, 2, 14)), 4),
    Row::Elects(4),
    Row::Leads(Call::Fast(proposal!(3, 3, 14)), 5),
    Row::Elects(5),
    Row::Leads(Call::Fast(proposal!(3, 4, 14)), 6),
    Row::Elects(6),
    Row::Leads(Call::Show { seat: 0, block: 5 }, 1),
    Row::Refuses(Refusal::CommitConflict, Call::Show { seat: 0, block: 6 }),
];

fn rules(rt: &HostRuntime) -> Result<(), Fault> {
    refused(rt, Refusal::FaultsOutOfRange, CountRule::new(22))?;
    refused(
        rt,
        Refusal::WeightsOutOfRange,
        WeightRule::new(Vec::new(rt.alloc())),
    )?;
    refused(rt, Refusal::RotationOutOfRange, RoundRobin::new(65))?;
    Ok(())
}

// The 32 bytes of an opening for one faulty seat, but for its letter and a spare byte.
fn record(letter: u8, spare: u8) -> [u8; 32] {
    let mut bytes = [0; 32];
    bytes[0] = letter;
    bytes[1] = 1;
    bytes[2] = spare;
    bytes
}

// What the first record of an input is answered.
fn answer(rt: &HostRuntime, bytes: &[u8]) -> Result<u32, Refusal> {
    Reader::new(bytes)
        .next()
        .map_or(Ok(0), |record| Rehearsal::new().play(rt.alloc(), record))
}

fn records(rt: &HostRuntime) -> Result<(), Fault> {
    refused(
        rt,
        Refusal::RecordCutShort,
        answer(rt, &record(b'O', 0)[0..31]),
    )?;
    for &(expected, letter, spare) in &[
        (Refusal::RecordKindUnknown, b'X', 0),
        (Refusal::SpareByteNotZero, b'O', 1),
        (Refusal::RecordOutOfPlace, b'H', 0),
    ] {
        refused(rt, expected, answer(rt, &record(letter, spare)))?;
    }
    Ok(())
}

// The refusals of an opening, of a cluster's calls, of rules and rotations, and of records.
pub(crate) fn play(rt: &HostRuntime) -> Result<(), Fault> {
    println!(rt; "every refusal once")?;
    refused(rt, Refusal::SeatCountsDiffer, open(rt, 5, 8))?;
    refused(rt, Refusal::UnknownSeatInSet, open(rt, 4, 16))?;
    table::play(rt, 8, &[START, CALLS])?;
    table::play(rt, 14, &[CONFLICT])?;
    rules(rt)?;
    records(rt)
}
