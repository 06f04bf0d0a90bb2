// A design's rule and rotation, printed as a table for a planner.
#![tactic(auto)]

use quorum::count::CountRule;
use quorum::rule::QuorumRule;
use quorum::weight::WeightRule;
use refusal::Refusal;
use rotation::listed::Listed;
use rotation::robin::RoundRobin;
use rotation::turns::{LAST_VIEW, Rotation, is_view};
use std::alloc::{AllocError, Global};
use std::num::TryFromIntError;
use std::process::ExitCode;
use std::{env, fmt, io};
use thiserror::Error;

const USAGE: &str = "usage: roster RULE ROTATION VIEWS [FROM]
  RULE      count:F, or weights:W,W,.. with a weight for each seat
  ROTATION  round-robin, round-robin:SEAT, or list:SEAT,SEAT,..
  VIEWS     how many views to show
  FROM      the first view to show, and the one to tell next turns from (1)";

// Why there is no table.
#[derive(Debug, Drop, Error)]
enum Fault {
    #[error("refused, {}: {}", .0.number(), .0)]
    Refused(#[from] Refusal),
    #[error("refused, {}: {}", Refusal::NoMemory.number(), Refusal::NoMemory)]
    Memory(#[from(alloc)] AllocError),
    #[error("{}", USAGE)]
    Unreadable,
    #[error(transparent)]
    Io(#[from] io::Error),
}

// Text that is no number of 64 bits is unreadable. A number that its place has no room for is refused as that place
// refuses numbers out of its range.
fn read<T: TryFrom<u64, Error = TryFromIntError>>(
    text: &str,
    refusal: Refusal,
) -> Result<T, Fault> {
    let number: u64 = text.parse().map_err(|_| Fault::Unreadable)?;
    T::try_from(number).map_err(|_| Fault::Refused(refusal))
}

// The numbers between commas.
fn read_list<T: TryFrom<u64, Error = TryFromIntError> + Drop>(
    heap: Global,
    text: &str,
    refusal: Refusal,
) -> Result<Vec<T>, Fault> {
    text.split(',')
        .map(|part| read(part, refusal))
        .try_collect(heap)
}

// Either rule, as text names it: an enum, as `read` may not hand out a boxed `dyn`.
#[derive(Drop)]
enum Rule {
    Count(CountRule),
    Weight(WeightRule),
}

impl Rule {
    fn read(heap: Global, word: &str) -> Result<Rule, Fault> {
        match word.split_once(':') {
            Some(("count", f)) => {
                let faults = read(f, Refusal::FaultsOutOfRange)?;
                Ok(Rule::Count(CountRule::new(faults)?))
            }
            Some(("weights", list)) => {
                let weights = read_list(heap, list, Refusal::WeightsOutOfRange)?;
                Ok(Rule::Weight(WeightRule::new(weights)?))
            }
            _ => Err(Fault::Unreadable),
        }
    }

    fn seats(&self) -> u8 {
        match self {
            Rule::Count(count) => count.seats(),
            Rule::Weight(weight) => weight.seats(),
        }
    }
}

// The number of seats, and which sets of them decide or are tolerated.
impl fmt::Display for Rule {
    fn fmt<W: fmt::Write>(&self, f: &mut fmt::Formatter<W>) -> fmt::Result {
        match self {
            Rule::Count(count) => write!(
                f,
                "seats      {}\n\
                 quorum     {} or more seats\n\
                 tolerated  {} or fewer seats",
                count.seats(),
                count.decisive(),
                count.faults()
            ),
            Rule::Weight(weight) => write!(
                f,
                "seats      {}, together of weight {}\n\
                 quorum     {} or more of the weight\n\
                 tolerated  {} or less of the weight",
                weight.seats(),
                weight.total(),
                weight.decisive(),
                weight.tolerable()
            ),
        }
    }
}

// Either rotation, an enum for the same reason.
#[derive(Drop)]
enum Turns {
    RoundRobin(RoundRobin),
    Listed(Listed),
}

impl Turns {
    fn read(heap: Global, word: &str, n: u8) -> Result<Turns, Fault> {
        if word == "round-robin" {
            return Ok(Turns::RoundRobin(RoundRobin::new(n)?));
        }
        match word.split_once(':') {
            Some(("round-robin", first)) => {
                let first = read(first, Refusal::RotationOutOfRange)?;
                Ok(Turns::RoundRobin(RoundRobin::starting_at(n, first)?))
            }
            Some(("list", list)) => {
                let order = read_list(heap, list, Refusal::RotationOutOfRange)?;
                Ok(Turns::Listed(Listed::new(n, order)?))
            }
            _ => Err(Fault::Unreadable),
        }
    }
}

fn show_next_turn(rt: &HostRuntime, seat: u8, turn: Option<u32>) -> io::Result<()> {
    match turn {
        Some(turn) => println!(rt; "{seat:<7}  {turn}"),
        None => println!(rt; "{seat:<7}  none"),
    }
}

// The part of the table that shows a rotation: so many views from one on, and the next turns from there.
#[derive(Drop)]
struct Table<'a> {
    rt: &'a HostRuntime,
    views: u32,
    from: u32,
}

impl Table<'_> {
    // The leader of each view shown.
    fn show_leaders<T: Rotation>(&self, turns: &T) -> io::Result<()> {
        let end = self.from.saturating_add(self.views).min(LAST_VIEW + 1);
        println!(self.rt; "\nview     leader")?;
        for view in self.from..end {
            if let Some(leader) = turns.leader(view) {
                println!(self.rt; "{view:<7}  {leader}")?;
            }
        }
        Ok(())
    }

    // Each seat's next turn: over seats, where the leaders go over views.
    fn show_next_turns<T: Rotation>(&self, turns: &T) -> io::Result<()> {
        println!(self.rt; "\nseat     next turn from view {}", self.from)?;
        for seat in 0..turns.seats() {
            show_next_turn(self.rt, seat, turns.next_turn(seat, self.from))?;
        }
        Ok(())
    }

    fn show<T: Rotation>(&self, turns: &T) -> io::Result<()> {
        self.show_leaders(turns)?;
        self.show_next_turns(turns)
    }
}

// The view to begin with.
fn read_from(word: Option<&str>) -> Result<u32, Fault> {
    let from = word.map_or(Ok(1), |word| read(word, Refusal::ViewOutOfRange))?;
    if !is_view(from) {
        return Err(Fault::Refused(Refusal::ViewOutOfRange));
    }
    Ok(from)
}

// The table that the words ask for.
fn answer(rt: &HostRuntime, words: &[String]) -> Result<(), Fault> {
    let (rule, turns, views, from) = match words {
        [rule, turns, views] => (rule, turns, views, None),
        [rule, turns, views, from] => (rule, turns, views, Some(from.as_str())),
        _ => return Err(Fault::Unreadable),
    };
    let rule = Rule::read(rt.alloc(), rule)?;
    let turns = Turns::read(rt.alloc(), turns, rule.seats())?;
    let views = read(views, Refusal::ViewOutOfRange)?;
    let from = read_from(from)?;
    let table = Table { rt, views, from };
    println!(rt; "{rule}")?;
    match &turns {
        Turns::RoundRobin(robin) => table.show(robin)?,
        Turns::Listed(listed) => table.show(listed)?,
    }
    Ok(())
}

fn run(rt: &HostRuntime) -> Result<(), Fault> {
    let words: Vec<String> = env::args(rt)?.skip(1).collect(rt.alloc())?;
    answer(rt, &words)
}

fn main(rt: HostRuntime) -> io::Result<ExitCode> {
    match run(&rt) {
        Ok(()) => Ok(ExitCode::SUCCESS),
        Err(fault) => {
            eprintln!(rt; "roster: {fault}")?;
            Ok(ExitCode::FAILURE)
        }
    }
}
