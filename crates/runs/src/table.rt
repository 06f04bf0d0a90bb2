// Runs of a cluster as tables: four seats by the count rule, in the round robin with no first seat named.
use crate::Fault;
use cluster::cluster::Cluster;
use protocol::call::Call;
use quorum::count::CountRule;
use quorum::seats::SeatSet;
use refusal::Refusal;
use rotation::robin::RoundRobin;
use std::io;

pub(crate) type Four = Cluster<CountRule, RoundRobin>;

// A proposal, by its view, its parent and the heard seats. The rows are constants, which call no function.
macro_rules! proposal {
    ($view:expr, $parent:expr, $heard:expr) => {
        book::block::Proposal {
            view: $view,
            parent: $parent,
            payload: 0,
            heard: quorum::seats::SeatSet { bits: $heard },
        }
    };
}

pub(crate) use proposal;

// A row of a run: one line of data, which as a call would say no more and need its own `?`.
#[derive(Clone, Copy)]
pub(crate) enum Row {
    // a call that leads up to others, and the answer that it should get
    Leads(Call, u32),
    // a block that seats 0, 1 and 2 are shown, and vote for
    Shows(u32),
    // a block that seats 1, 2 and 3 vote for
    Elects(u32),
    // a call, and how many times it is made
    Repeats(Call, u32),
    // a block that enters: its name, and the number, certificate and commit point that it should have
    Enters(&'static str, Call, (u32, u32, u32)),
    // a call whose answer is told between some words
    Tells(&'static str, Call, &'static str),
    // a call that should be refused
    Refuses(Refusal, Call),
}

// Four seats, of which those of a set are open, by a rotation of so many. The tests open theirs themselves: one function
// for both would be a library's, for three lines.
pub(crate) fn open(rt: &HostRuntime, seats: u8, open_set: u64) -> Result<Four, Refusal> {
    let rule = CountRule::new(1)?;
    let rotation = RoundRobin::new(seats)?;
    Cluster::open(rt.alloc(), rule, rotation, SeatSet { bits: open_set })
}

// What a call is answered, between some words.
pub(crate) fn tell(
    rt: &HostRuntime,
    before: &str,
    answer: Result<u32, Refusal>,
    after: &str,
) -> io::Result<()> {
    match answer {
        Ok(number) => println!(rt; "{before}{number}{after}"),
        Err(refusal) => println!(rt; "{before}refused, {}{after}", refusal.number()),
    }
}

// What comes beside the refusal that should.
pub(crate) fn refused<T: Drop>(
    rt: &HostRuntime,
    expected: Refusal,
    answer: Result<T, Refusal>,
) -> io::Result<()> {
    let number = expected.number();
    match answer {
        Ok(_) => println!(rt; "{number}: not refused"),
        Err(refusal) => println!(rt; "{number}: refused, {}: {refusal}", refusal.number()),
    }
}

// A cluster that rows are played on, and the runtime that prints what comes.
#[derive(Drop)]
struct Player<'a> {
    rt: &'a HostRuntime,
    cluster: Four,
}

impl Player<'_> {
    fn lead(&mut self, call: Call, expected: u32) -> Result<(), Fault> {
        let answer = self.cluster.call(call)?;
        if answer != expected {
            println!(self.rt; "    a step gave {answer}, and should give {expected}")?;
        }
        Ok(())
    }

    fn show(&mut self, block: u32) -> Result<(), Fault> {
        for seat in 0..3 {
            self.lead(Call::Show { seat, block }, 1)?;
        }
        Ok(())
    }

    fn elect(&mut self, block: u32) -> Result<(), Fault> {
        for seat in 1..4 {
            self.lead(Call::Vote { seat, block }, u32::from(seat))?;
        }
        Ok(())
    }

    fn repeat(&mut self, call: Call, count: u32) -> Result<(), Fault> {
        for _ in 0..count {
            self.cluster.call(call)?;
        }
        Ok(())
    }

    fn enter(&mut self, name: &str, call: Call, expected: (u32, u32, u32)) -> Result<(), Fault> {
        let (number, certificate, commit) = expected;
        let given = self.cluster.call(call)?;
        let block = self.cluster.book().find(given).ok_or(Refusal::NoSuchBlock)?;
        println!(self.rt;
            "{name}  block {given}, certificate {}, commit point {}  (expected {number}, {certificate}, {commit})",
            block.certificate, block.commit
        )?;
        Ok(())
    }

    fn play(&mut self, row: Row) -> Result<(), Fault> {
        match row {
            Row::Leads(call, answer) => self.lead(call, answer)?,
            Row::Shows(block) => self.show(block)?,
            Row::Elects(block) => self.elect(block)?,
            Row::Repeats(call, count) => self.repeat(call, count)?,
            Row::Enters(name, call, expected) => self.enter(name, call, expected)?,
            Row::Tells(before, call, after) => tell(
                self.rt,
                before,
                self.cluster.call(call),
                after,
            )?,
            Row::Refuses(expected, call) => refused(self.rt, expected, self.cluster.call(call))?,
        }
        Ok(())
    }
}

// Plays rows, part by part, on a new cluster in which the seats of a set are open.
pub(crate) fn play(rt: &HostRuntime, open_set: u64, parts: &[&[Row]]) -> Result<(), Fault> {
    let cluster = open(rt, 4, open_set)?;
    let mut player = Player { rt, cluster };
    for &row in parts.iter().copied().flatten() {
        player.play(row)?;
    }
    Ok(())
}
