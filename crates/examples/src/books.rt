// Small books of four seats, of which seat 3 is open; view v is led by seat v mod 4.
use crate::common::{list, weigh};
use book::block::{Block, Kind, Origin, Proposal};
use book::design::Design;
use book::pages::Book;
use letters::letter::Letter;
use quorum::count::CountRule;
use quorum::seats::SeatSet;
use quorum::weight::WeightRule;
use refusal::Refusal;
use rotation::listed::Listed;
use rotation::robin::RoundRobin;
use std::process::Abort;
use std::test::Fail;

// A call that changes a book. A book has four of a cluster's six calls.
#[derive(Clone, Copy)]
enum Step {
    // a view, a parent and the heard seats
    Fast(u32, u32, u64),
    Slow(u32, u32, u64),
    // a seat and a block
    Vote(u8, u32),
    // a seat, a view and a block
    Letter(u8, u32, u32),
}

// What a test expects of a block.
#[derive(Clone, Copy)]
enum Fact {
    Kind(Kind),
    // its view, its payload and its height
    Place(u32, u64, u32),
    Origin(Option<Origin>),
    // its certificate and its commit point
    Points(u32, u32),
    Voters(u64),
    // a seat, and what it reported
    Report(u8, Option<u32>),
}

// What a test does with a book, or expects of it. A row is one line of data: as a call it would say no more, and need
// its own `?`.
#[derive(Clone, Copy)]
enum Row {
    // a step that is accepted, with its answer
    Takes(Step, u32),
    // a step that is refused, which leaves the blocks and letters as many as they were
    Refuses(Step, Refusal),
    // votes of seats 0, 1 and 2, who are the first for the block
    Elects(u32),
    // letters of seats 0, 1 and 2 for a view, each with the block that it names
    Writes(u32, [u32; 3]),
    // how many blocks and letters there are
    Counts(u32, u32),
    // a block and a fact of it
    Has(u32, Fact),
    // a block, its view and its certificate's view
    Rank(u32, u32, u32),
    HighestView(u32),
}

fn proposal(view: u32, parent: u32, heard: u64) -> Proposal {
    Proposal {
        view,
        parent,
        payload: 1000 + u64::from(view),
        heard: SeatSet { bits: heard },
    }
}

// A book, and what ends the test where the book is not as expected.
#[derive(Drop)]
struct Trial<'a, A> {
    rt: &'a A,
    book: Book,
}

impl<'a, A: Abort + AllocGlobal> Trial<'a, A> {
    // A new book of so many seats.
    fn new(rt: &'a A, seats: u8) -> Result<Trial<'a, A>, Fail> {
        let book = Book::new(rt.alloc(), seats)?;
        Ok(Trial { rt, book })
    }

    fn take(&mut self, step: Step) -> Result<u32, Refusal> {
        let rule = CountRule::new(1)?;
        let turns = RoundRobin::new(4)?;
        let design = Design {
            rule: &rule,
            rotation: &turns,
            open_set: SeatSet { bits: 8 },
        };
        match step {
            Step::Fast(v, p, heard) => self.book.fast(&design, &proposal(v, p, heard)),
            Step::Slow(v, p, heard) => self.book.slow(&design, &proposal(v, p, heard)),
            Step::Vote(seat, block) => self.book.add_vote(seat, block),
            Step::Letter(seat, view, block) => self.book.add_letter(Letter { seat, view, block }),
        }
    }

    fn takes(&mut self, step: Step, answer: u32) -> Result<(), Fail> {
        assert_eq!(self.rt; self.take(step)?, answer);
        Ok(())
    }

    fn refuses(&mut self, step: Step, refusal: Refusal) {
        let counts = self.counts();
        assert_eq!(self.rt; self.take(step), Err(refusal));
        assert_eq!(self.rt; self.counts(), counts);
    }

    // How many blocks and letters there are.
    fn counts(&self) -> (u32, u32) {
        (self.book.blocks(), self.book.letters())
    }

    fn elect(&mut self, block: u32) -> Result<(), Fail> {
        for seat in 0..3 {
            self.takes(Step::Vote(seat, block), u32::from(seat) + 1)?;
        }
        Ok(())
    }

    fn write(&mut self, view: u32, named: [u32; 3]) -> Result<(), Fail> {
        for (seat, block) in (0..3).zip(named) {
            let count = self.take(Step::Letter(seat, view, block))?;
            assert_eq!(self.rt; count, self.book.letters());
        }
        Ok(())
    }

    fn has(&self, number: u32, fact: Fact) -> Result<(), Fail> {
        let block = self.book.find(number).ok_or("no such block")?;
        fact.holds_of(self.rt, block);
        Ok(())
    }

    fn play_row(&mut self, row: Row) -> Result<(), Fail> {
        match row {
            Row::Takes(step, answer) => self.takes(step, answer)?,
            Row::Refuses(step, refusal) => self.refuses(step, refusal),
            Row::Elects(number) => self.elect(number)?,
            Row::Writes(view, named) => self.write(view, named)?,
            Row::Counts(blocks, letters) => assert_eq!(self.rt; self.counts(), (blocks, letters)),
            Row::Has(number, fact) => self.has(number, fact)?,
            Row::Rank(number, view, certificate) => assert_eq!(self.rt;
                self.book.rank(number),
                Some((view, certificate))
            ),
            Row::HighestView(view) => assert_eq!(self.rt; self.book.highest_view(), Some(view)),
        }
        Ok(())
    }

    // Rows, part by part.
    fn play(&mut self, parts: &[&[Row]]) -> Result<(), Fail> {
        for &row in parts.iter().copied().flatten() {
            self.play_row(row)?;
        }
        Ok(())
    }
}

impl Fact {
    fn holds_of(self, rt: &impl Abort, block: &Block) {
        match self {
            Fact::Kind(kind) => assert_eq!(rt; block.kind, kind),
            Fact::Place(view, payload, height) => assert_eq!(rt;
                (block.view, block.payload, block.height),
                (view, payload, height)
            ),
            Fact::Origin(told) => assert_eq!(rt; block.origin(), told),
            Fact::Points(certificate, commit) => assert_eq!(rt;
                (block.certificate, block.commit),
                (certificate, commit)
            ),
            Fact::Voters(bits) => assert_eq!(rt; block.voters.bits, bits),
            Fact::Report(seat, told) => assert_eq!(rt; block.report(seat), told),
        }
    }
}

// A test: rows on a new book.
fn plays(rt: &(impl Abort + AllocGlobal), parts: &[&[Row]]) -> Result<(), Fail> {
    Trial::new(rt, 4)?.play(parts)
}

// Block 1 of view 1 and, on the votes of 0, 1 and 2 for it, block 2 of view 2.
const TWO: &[Row] = &[
    Row::Takes(Step::Fast(1, 0, 7), 1),
    Row::Elects(1),
    Row::Takes(Step::Fast(2, 1, 7), 2),
];

// And, as only 0 and 1 voted for block 2, the slow block 3 of view 3 on it.
const SLOW: &[Row] = &[
    Row::Takes(Step::Vote(0, 2), 1),
    Row::Takes(Step::Vote(1, 2), 2),
    Row::Writes(3, [2, 2, 1]),
    Row::Refuses(Step::Slow(3, 1, 7), Refusal::ParentUnfit),
    Row::Takes(Step::Slow(3, 2, 7), 3),
];

// Or two blocks of view 3, which is led by the open seat: 0 and 1 vote for block 3, and 2 for block 4. Each names its
// own to view 5.
const FORK: &[Row] = &[
    Row::Elects(2),
    Row::Takes(Step::Fast(3, 2, 7), 3),
    Row::Takes(Step::Fast(3, 2, 7), 4),
    Row::Takes(Step::Vote(0, 3), 1),
    Row::Takes(Step::Vote(1, 3), 2),
    Row::Takes(Step::Vote(2, 4), 1),
    Row::Writes(5, [3, 3, 4]),
];

// And the open seat names block 3 as well, so that a quorum does, and block 5 stands on it.
const CLASH: &[Row] = &[
    Row::Takes(Step::Letter(3, 5, 3), 4),
    Row::Takes(Step::Slow(5, 3, 15), 5),
];

#[test]
fn the_first_block(rt: HostRuntime) -> Result<(), Fail> {
    const ROWS: &[Row] = &[
        Row::Counts(1, 0),
        Row::Has(0, Fact::Kind(Kind::First)),
        Row::Has(0, Fact::Place(0, 0, 0)),
        Row::Has(0, Fact::Origin(None)),
        Row::Has(0, Fact::Points(0, 0)),
        Row::Has(0, Fact::Voters(15)),
        Row::Has(0, Fact::Report(0, None)),
        Row::Rank(0, 0, 0),
        Row::HighestView(0),
    ];
    plays(&rt, &[ROWS])
}

#[test]
fn no_block_is_told_of_before_it_enters(rt: HostRuntime) -> Result<(), Fail> {
    let book = Book::new(rt.alloc(), 4)?;
    assert!(rt; book.find(1).is_none() && book.rank(1).is_none() && book.on_chain(1, 0).is_none());
    assert_eq!(rt; book.stands_on(1, 0), None);
    assert_eq!(rt; book.stands_on(0, 1), None);
    Ok(())
}

#[test]
fn parts_of_a_block(rt: HostRuntime) -> Result<(), Fail> {
    const ROWS: &[Row] = &[
        Row::Has(2, Fact::Kind(Kind::Fast)),
        Row::Has(2, Fact::Place(2, 1002, 2)),
        Row::Has(
            2,
            Fact::Origin(Some(Origin {
                parent: 1,
                maker: 2,
                heard: SeatSet { bits: 7 },
            })),
        ),
        Row::Has(2, Fact::Report(0, None)),
        Row::Has(1, Fact::Voters(7)),
        Row::Has(2, Fact::Voters(0)),
    ];
    plays(&rt, &[TWO, ROWS])
}

#[test]
fn votes(rt: HostRuntime) -> Result<(), Fail> {
    const ROWS: &[Row] = &[
        // a vote again changes nothing
        Row::Takes(Step::Vote(0, 1), 3),
        Row::Takes(Step::Vote(3, 1), 4),
        Row::Takes(Step::Vote(2, 2), 1),
        Row::Refuses(Step::Vote(0, 3), Refusal::NoSuchBlock),
        Row::Refuses(Step::Vote(0, u32::MAX), Refusal::NoSuchBlock),
        Row::Has(1, Fact::Voters(15)),
        Row::Has(2, Fact::Voters(4)),
    ];
    plays(&rt, &[TWO, ROWS])
}

#[test]
fn letters_refused(rt: HostRuntime) -> Result<(), Fail> {
    const ROWS: &[Row] = &[
        Row::Refuses(Step::Letter(0, 0, 3), Refusal::NoSuchBlock),
        Row::Refuses(Step::Letter(0, 0, 2), Refusal::ViewOutOfRange),
        Row::Refuses(Step::Letter(0, 1_000_001, 2), Refusal::ViewOutOfRange),
        Row::Refuses(Step::Letter(0, 1, 2), Refusal::BlockNotBelowLetter),
        Row::Refuses(Step::Letter(0, 2, 2), Refusal::BlockNotBelowLetter),
        Row::Takes(Step::Letter(0, 3, 2), 1),
        Row::Takes(Step::Letter(0, 1_000_000, 2), 2),
    ];
    plays(&rt, &[TWO, ROWS])
}

// Of several reasons the smallest number is given.
#[test]
fn fast_refused(rt: HostRuntime) -> Result<(), Fail> {
    const ROWS: &[Row] = &[
        Row::Refuses(Step::Fast(0, 9, 19), Refusal::UnknownSeatInSet),
        Row::Refuses(Step::Fast(0, 9, 3), Refusal::NoSuchBlock),
        Row::Refuses(Step::Fast(0, 2, 3), Refusal::ViewOutOfRange),
        Row::Refuses(Step::Fast(1_000_001, 2, 3), Refusal::ViewOutOfRange),
        Row::Refuses(Step::Fast(2, 2, 3), Refusal::LeaderHasProposed),
        Row::Refuses(Step::Fast(4, 2, 3), Refusal::HeardNoQuorum),
        Row::Refuses(Step::Fast(4, 2, 7), Refusal::HeardSeatSilent),
        Row::Refuses(Step::Fast(4, 1, 11), Refusal::HeardSeatSilent),
        Row::Refuses(Step::Fast(4, 1, 7), Refusal::ParentUnfit),
        Row::Refuses(Step::Fast(4, 0, 15), Refusal::ParentUnfit),
    ];
    plays(&rt, &[TWO, ROWS])
}

#[test]
fn slow_refused(rt: HostRuntime) -> Result<(), Fail> {
    const ROWS: &[Row] = &[
        Row::Writes(4, [1, 0, 0]),
        Row::Refuses(Step::Slow(0, 9, 19), Refusal::UnknownSeatInSet),
        Row::Refuses(Step::Slow(0, 9, 3), Refusal::NoSuchBlock),
        Row::Refuses(Step::Slow(0, 2, 3), Refusal::ViewOutOfRange),
        Row::Refuses(Step::Slow(1_000_001, 2, 3), Refusal::ViewOutOfRange),
        Row::Refuses(Step::Slow(2, 2, 3), Refusal::LeaderHasProposed),
        Row::Refuses(Step::Slow(4, 2, 3), Refusal::HeardNoQuorum),
        Row::Refuses(Step::Slow(4, 2, 15), Refusal::HeardSeatSilent),
        Row::Refuses(Step::Slow(5, 1, 7), Refusal::HeardSeatSilent),
        // reported by nobody, and outranked
        Row::Refuses(Step::Slow(4, 2, 7), Refusal::ParentUnfit),
        Row::Refuses(Step::Slow(4, 0, 7), Refusal::ParentUnfit),
        Row::Takes(Step::Slow(4, 1, 7), 3),
    ];
    plays(&rt, &[TWO, ROWS])
}

#[test]
fn fast_blocks_certify_their_parents(rt: HostRuntime) -> Result<(), Fail> {
    const ROWS: &[Row] = &[
        Row::Elects(2),
        Row::Takes(Step::Fast(3, 2, 7), 3),
        Row::Has(1, Fact::Points(0, 0)),
        Row::Has(2, Fact::Points(1, 0)),
        Row::Has(3, Fact::Points(2, 1)),
        Row::Rank(3, 3, 2),
    ];
    plays(&rt, &[TWO, ROWS])
}

#[test]
fn a_slow_block_inherits(rt: HostRuntime) -> Result<(), Fail> {
    const ROWS: &[Row] = &[
        Row::Has(3, Fact::Points(1, 0)),
        Row::Rank(3, 3, 1),
        Row::Elects(3),
        Row::Takes(Step::Fast(4, 3, 7), 4),
        Row::Has(4, Fact::Points(3, 1)),
    ];
    plays(&rt, &[TWO, SLOW, ROWS])
}

#[test]
fn reports_told(rt: HostRuntime) -> Result<(), Fail> {
    const ROWS: &[Row] = &[
        Row::Has(3, Fact::Kind(Kind::Slow)),
        Row::Has(3, Fact::Report(0, Some(2))),
        Row::Has(3, Fact::Report(1, Some(2))),
        Row::Has(3, Fact::Report(2, Some(1))),
        // seat 3 was not heard, and there is no seat 66
        Row::Has(3, Fact::Report(3, None)),
        Row::Has(3, Fact::Report(66, None)),
    ];
    plays(&rt, &[TWO, SLOW, ROWS])
}

#[test]
fn a_quorum_of_reports_certifies(rt: HostRuntime) -> Result<(), Fail> {
    const ROWS: &[Row] = &[
        Row::Writes(3, [2, 2, 2]),
        Row::Takes(Step::Slow(3, 2, 7), 3),
        Row::Has(3, Fact::Points(2, 1)),
    ];
    plays(&rt, &[TWO, ROWS])
}

// Block 3 stands on block 2, but a report of it is none of block 2.
#[test]
fn only_reports_of_the_block_itself_count(rt: HostRuntime) -> Result<(), Fail> {
    const ROWS: &[Row] = &[
        Row::Writes(4, [2, 2, 3]),
        Row::Takes(Step::Slow(4, 3, 7), 4),
        Row::Has(4, Fact::Points(1, 0)),
    ];
    plays(&rt, &[TWO, SLOW, ROWS])
}

// The quorum may name a block below the parent.
#[test]
fn a_quorum_certifies_below_the_parent(rt: HostRuntime) -> Result<(), Fail> {
    const ROWS: &[Row] = &[
        Row::Writes(4, [2, 2, 3]),
        Row::Takes(Step::Letter(3, 4, 2), 7),
        Row::Takes(Step::Slow(4, 3, 15), 4),
        Row::Has(4, Fact::Points(2, 1)),
    ];
    plays(&rt, &[TWO, SLOW, ROWS])
}

// But neither one that the parent does not stand on, nor one no later than the parent's certificate.
#[test]
fn a_quorum_off_the_chain_certifies_nothing(rt: HostRuntime) -> Result<(), Fail> {
    const ROWS: &[Row] = &[
        Row::Writes(3, [1, 1, 0]),
        Row::Takes(Step::Slow(3, 1, 7), 3),
        Row::Writes(4, [2, 2, 3]),
        Row::Takes(Step::Letter(3, 4, 2), 7),
        Row::Takes(Step::Slow(4, 3, 15), 4),
        Row::Has(4, Fact::Points(0, 0)),
        Row::Writes(5, [0, 0, 2]),
        Row::Takes(Step::Letter(3, 5, 0), 11),
        Row::Takes(Step::Slow(5, 2, 15), 5),
        Row::Has(5, Fact::Points(1, 0)),
    ];
    plays(&rt, &[TWO, ROWS])
}

#[test]
fn the_latest_letter_is_reported(rt: HostRuntime) -> Result<(), Fail> {
    const ROWS: &[Row] = &[
        Row::Writes(3, [0, 0, 1]),
        Row::Writes(4, [0, 0, 0]),
        Row::Writes(3, [2, 1, 1]),
        Row::Takes(Step::Slow(3, 2, 7), 3),
        Row::Has(3, Fact::Report(0, Some(2))),
        Row::Has(3, Fact::Report(1, Some(1))),
        Row::Has(3, Fact::Report(2, Some(1))),
    ];
    plays(&rt, &[TWO, ROWS])
}

// Block 3 is slow and block 4 fast, both of view 3; the views of their certificates decide.
#[test]
fn certificates_decide_between_equal_views(rt: HostRuntime) -> Result<(), Fail> {
    const ROWS: &[Row] = &[
        Row::Elects(2),
        Row::Writes(3, [1, 1, 1]),
        Row::Takes(Step::Slow(3, 1, 7), 3),
        Row::Takes(Step::Fast(3, 2, 7), 4),
        Row::Rank(3, 3, 1),
        Row::Rank(4, 3, 2),
        Row::Writes(5, [3, 3, 4]),
        Row::Refuses(Step::Slow(5, 3, 7), Refusal::ParentUnfit),
        Row::Takes(Step::Slow(5, 4, 7), 5),
    ];
    plays(&rt, &[TWO, ROWS])
}

// Block 4 has the higher view and the lower certificate.
#[test]
fn the_view_decides_first(rt: HostRuntime) -> Result<(), Fail> {
    const ROWS: &[Row] = &[
        Row::Elects(2),
        Row::Writes(4, [1, 1, 0]),
        Row::Takes(Step::Fast(3, 2, 7), 3),
        Row::Takes(Step::Slow(4, 1, 7), 4),
        Row::Rank(3, 3, 2),
        Row::Rank(4, 4, 0),
        Row::Writes(5, [3, 4, 4]),
        Row::Refuses(Step::Slow(5, 3, 7), Refusal::ParentUnfit),
        Row::Takes(Step::Slow(5, 4, 7), 5),
    ];
    plays(&rt, &[TWO, ROWS])
}

// Either block of equal rank may be the parent.
#[test]
fn equal_ranks(rt: HostRuntime) -> Result<(), Fail> {
    const ROWS: &[Row] = &[
        Row::Takes(Step::Slow(5, 4, 7), 5),
        Row::Has(5, Fact::Points(2, 1)),
        Row::Elects(5),
        Row::Takes(Step::Fast(6, 5, 7), 6),
        Row::Has(6, Fact::Points(5, 2)),
    ];
    plays(&rt, &[TWO, FORK, ROWS])
}

#[test]
fn a_clash_holds_the_commit_point_back(rt: HostRuntime) -> Result<(), Fail> {
    const ROWS: &[Row] = &[
        Row::Has(5, Fact::Points(3, 2)),
        Row::Elects(5),
        Row::Takes(Step::Fast(6, 5, 7), 6),
        Row::Has(6, Fact::Points(5, 2)),
    ];
    plays(&rt, &[TWO, FORK, CLASH, ROWS])
}

// The clash is at block 5, below the certificate, block 6, of the last block.
#[test]
fn a_clash_is_found_further_down(rt: HostRuntime) -> Result<(), Fail> {
    const ROWS: &[Row] = &[
        Row::Writes(7, [5, 5, 3]),
        Row::Takes(Step::Slow(7, 5, 7), 6),
        Row::Has(6, Fact::Points(3, 2)),
        Row::Elects(6),
        Row::Takes(Step::Fast(8, 6, 7), 7),
        Row::Has(7, Fact::Points(6, 2)),
    ];
    plays(&rt, &[TWO, FORK, CLASH, ROWS])
}

#[test]
fn what_stands_on_what(rt: HostRuntime) -> Result<(), Fail> {
    let mut trial = Trial::new(&rt, 4)?;
    trial.play(&[TWO, FORK, CLASH])?;
    for (number, below, told) in [
        (5, 5, Some(true)),
        (5, 3, Some(true)),
        (5, 0, Some(true)),
        (5, 4, Some(false)),
        (4, 3, Some(false)),
        (3, 5, Some(false)),
        (0, 0, Some(true)),
        (6, 0, None),
        (0, 6, None),
    ] {
        assert_eq!(rt; trial.book.stands_on(number, below), told);
    }
    Ok(())
}

#[test]
fn the_highest_view_is_not_always_the_last(rt: HostRuntime) -> Result<(), Fail> {
    const ROWS: &[Row] = &[
        Row::HighestView(2),
        Row::Writes(9, [2, 2, 2]),
        Row::Writes(4, [2, 2, 2]),
        Row::Takes(Step::Slow(9, 2, 7), 3),
        Row::Takes(Step::Slow(4, 2, 7), 4),
        Row::HighestView(9),
    ];
    plays(&rt, &[TWO, ROWS])
}

// A kept leader has one block of its view; the open seat has as many as it likes.
#[test]
fn one_block_of_a_kept_leader(rt: HostRuntime) -> Result<(), Fail> {
    const ROWS: &[Row] = &[
        Row::Elects(2),
        Row::Refuses(Step::Fast(2, 1, 7), Refusal::LeaderHasProposed),
        Row::Takes(Step::Fast(3, 2, 7), 3),
        Row::Takes(Step::Fast(3, 2, 7), 4),
    ];
    plays(&rt, &[TWO, ROWS])
}

#[test]
fn the_256th_block_is_the_last(rt: HostRuntime) -> Result<(), Fail> {
    const ROWS: &[Row] = &[
        // 11 comes after 2, 4 and 5, and before the rest
        Row::Refuses(Step::Fast(256, 255, 7), Refusal::BlocksFull),
        Row::Refuses(Step::Slow(255, 255, 0), Refusal::BlocksFull),
        Row::Refuses(Step::Fast(0, 255, 7), Refusal::ViewOutOfRange),
        Row::Refuses(Step::Slow(0, 256, 7), Refusal::NoSuchBlock),
        Row::Counts(256, 0),
        Row::HighestView(255),
        Row::Has(255, Fact::Points(254, 253)),
    ];
    let mut trial = Trial::new(&rt, 4)?;
    // each on the votes for the one before
    for block in 1..=255 {
        trial.takes(Step::Fast(block, block - 1, 7), block)?;
        trial.elect(block)?;
    }
    trial.play(&[ROWS])
}

#[test]
fn the_512th_letter_is_the_last(rt: HostRuntime) -> Result<(), Fail> {
    const ROWS: &[Row] = &[
        Row::Refuses(Step::Letter(0, 1, 0), Refusal::LettersFull),
        Row::Refuses(Step::Letter(0, 0, 0), Refusal::ViewOutOfRange),
        Row::Counts(1, 512),
    ];
    let mut trial = Trial::new(&rt, 4)?;
    for count in 1..=512 {
        trial.takes(Step::Letter(3, 1, 0), count)?;
    }
    trial.play(&[ROWS])
}

// What another rule and another rotation answer: seat 0 alone is a quorum, and leads view 2.
impl<A: Abort + AllocGlobal> Trial<'_, A> {
    fn ask(&mut self, rule: &WeightRule, turns: &Listed) -> Result<(), Fail> {
        let design = Design {
            rule,
            rotation: turns,
            open_set: SeatSet { bits: 0 },
        };
        let heard = SeatSet { bits: 1 };
        // seats 1 and 2 are no quorum
        let answer = self.book.fast(&design, &proposal(1, 0, 6));
        assert_eq!(self.rt; answer, Err(Refusal::HeardNoQuorum));
        for &(number, parent, maker) in &[(1, 0, 2), (2, 1, 0)] {
            let answer = self.book.fast(&design, &proposal(number, parent, 1));
            assert_eq!(self.rt; answer, Ok(number));
            let origin = Origin {
                parent,
                maker,
                heard,
            };
            self.has(number, Fact::Origin(Some(origin)))?;
            self.takes(Step::Vote(0, number), 1)?;
        }
        Ok(())
    }
}

#[test]
fn rule_and_rotation_are_asked(rt: HostRuntime) -> Result<(), Fail> {
    let heap = rt.alloc();
    let rule = weigh(heap, &[5, 1, 1])?;
    let turns = list(heap, 3, &[2, 0])?;
    Trial::new(&rt, 3)?.ask(&rule, &turns)
}
