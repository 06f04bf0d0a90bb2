// Plays the worked runs and the limits through the public calls, and prints what comes beside what should.
#![tactic(auto)]

mod limits;
mod refusals;
mod table;
mod worked;

use refusal::Refusal;
use std::io;
use thiserror::Error;

// Why the program ended early.
#[derive(Debug, Drop, Error)]
pub(crate) enum Fault {
    #[error(transparent)]
    Refused(#[from] Refusal),
    #[error(transparent)]
    Io(#[from] io::Error),
}

fn main(rt: HostRuntime) -> Result<(), Fault> {
    worked::play(&rt)?;
    limits::play(&rt)?;
    refusals::play(&rt)
}
