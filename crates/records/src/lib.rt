// The records of a rehearsal: 32 bytes each, read one after another, and played.
#![tactic(auto)]

pub mod reader;
pub mod record;
pub mod rehearsal;
