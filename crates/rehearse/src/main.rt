// Plays the records of standard input on a cluster, and prints a line for each.
#![tactic(auto)]

use records::reader::Reader;
use records::rehearsal::Rehearsal;
use refusal::Refusal;
use std::alloc::Global;
use std::io::{self, BufWriter, Read, Write};
use std::process::ExitCode;
use thiserror::Error;

// At most so many records are read, of 32 bytes each.
const MOST_RECORDS: u64 = 4096;

// Why it ended early.
#[derive(Debug, Drop, Error)]
enum Fault {
    #[error("there is no memory for a cluster")]
    NoMemory,
    #[error(transparent)]
    Io(#[from] io::Error),
}

// A line for each record: its number from 0, and what came of it.
fn play<W: Write>(heap: Global, bytes: &[u8], out: &mut W) -> Result<(), Fault> {
    let mut rehearsal = Rehearsal::new();
    for (number, record) in Reader::new(bytes).enumerate() {
        match rehearsal.play(heap, record) {
            Ok(answer) => writeln!(out, "{number} ok {answer}")?,
            Err(Refusal::NoMemory) => return Err(Fault::NoMemory),
            Err(refusal) => writeln!(out, "{number} no {}", refusal.number())?,
        }
    }
    Ok(())
}

fn run(rt: &HostRuntime) -> Result<(), Fault> {
    let heap = rt.alloc();
    let mut bytes = Vec::new(heap);
    rt.stdin().take(32 * MOST_RECORDS).read_to_end(&mut bytes)?;
    let mut out = BufWriter::new(heap, rt.stdout())?;
    play(heap, bytes.as_slice(), &mut out)?;
    out.flush()?;
    Ok(())
}

fn main(rt: HostRuntime) -> io::Result<ExitCode> {
    match run(&rt) {
        Ok(()) => Ok(ExitCode::SUCCESS),
        Err(fault) => {
            eprintln!(rt; "rehearse: {fault}")?;
            Ok(ExitCode::FAILURE)
        }
    }
}
