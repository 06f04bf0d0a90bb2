// Reports: what the seats that a leader heard say by their latest letters.
ghost use Rattle.std.specs.Prelude.{◌≡◌, if◌then◌else◌, Ok, Err};
ghost use Rattle.refusal.specs.declared.Refusal.TheVariants.{HeardSeatSilent};
ghost use Rattle.letters.specs.Letters.{no_letter, report_of, gathered, silent};
ghost use Rattle.letters.specs.Named.{reports_it, namers, decides_with, named};
ghost use Rattle.letters.specs.Searches.{any_below};

use crate::letter::{Letter, latest};
use quorum::rule::QuorumRule;
use quorum::seats::SeatSet;
use refusal::Refusal;

// What a seat reports to a block of a view; nothing is asked of a seat that is not heard.
fn report_of(letters: &[Letter], heard: SeatSet, view: u32, seat: u8) -> Result<u32, Refusal>
    ensures { result ≡ (if no_letter letters.now heard.bits view seat then Err HeardSeatSilent else Ok (report_of letters.now heard.bits view seat)) }
{
    if !heard.holds(seat) {
        return Ok(0);
    }
    let Some(block) = latest(letters, seat, view) else {
        return Err(Refusal::HeardSeatSilent);
    };
    Ok(block)
}

// The heard seats, and the block that each of them reports, by seat; 0 for the others. The set stands beside the table,
// and not an `Option` in it, since a rule is asked with the set.
#[derive(Clone, Copy)]
pub struct Reports {
    pub heard: SeatSet,
    pub blocks: [u32; 64],
}

impl Reports {
    // What the heard seats report to a block of a view.
    pub fn gather(letters: &[Letter], heard: SeatSet, view: u32) -> Result<Reports, Refusal>
        ensures { result ≡ (if silent letters.now heard.bits view then Err HeardSeatSilent else Ok (gathered letters.now heard view)) }
    {
        let mut blocks = [0; 64];
        for (seat, block) in blocks.iter_mut().enumerate() {
            *block = report_of(letters, heard, view, seat as u8)?;
        }
        Ok(Reports { heard, blocks })
    }

    // Whether a seat is heard and reports exactly this block.
    fn tells(&self, seat: u8, block: u32) -> bool
        ensures { result ≡ reports_it self.now.blocks self.now.heard.bits block seat }
    {
        self.heard.holds(seat) && self.blocks[seat as usize] == block
    }

    // Whether a heard seat reports this block.
    pub fn contains(&self, block: u32) -> bool
        ensures { result ≡ any_below (reports_it self.now.blocks self.now.heard.bits block) 64 }
    {
        (0..64).any(|seat| self.tells(seat, block))
    }

    // The heard seats that report exactly this block.
    fn namers(&self, block: u32) -> SeatSet
        ensures { result.bits ≡ namers self.now.blocks self.now.heard.bits block }
    {
        let mut set = SeatSet { bits: 0 };
        // a `for`, since a fold over the seats would be no plainer
        for seat in 0..64 {
            if self.tells(seat, block) {
                set = set.with(seat);
            }
        }
        set
    }

    // Whether a seat is heard, and the seats that report the same block as it are a quorum.
    fn decides_with<R: QuorumRule>(&self, rule: &R, seat: u8) -> bool
        ensures { result ≡ decides_with (R.QuorumRule.quorum rule.now) self.now.blocks self.now.heard.bits seat }
    {
        self.heard.holds(seat) && rule.is_quorum(self.namers(self.blocks[seat as usize]))
    }

    // The block that a quorum of the reports names.
    pub fn named<R: QuorumRule>(&self, rule: &R) -> Option<u32>
        ensures { result ≡ named (R.QuorumRule.quorum rule.now) self.now.blocks self.now.heard.bits }
    {
        (0..64)
            .rev()
            .find(|seat| self.decides_with(rule, *seat))
            .map(|seat| self.blocks[seat as usize])
    }
}
