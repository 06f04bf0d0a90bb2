// The count rule.
ghost use Rattle.std.specs.Prelude.{◌≡◌, ◌+◌, ◌*◌, ◌≤◌};
ghost use Rattle.quorum.specs.Counting.{count_rule, seats_for, count_quorum, count_tolerated};
ghost use Rattle.refusal.specs.Outcomes.{by};
ghost use Rattle.quorum.specs.Counts.{count_laws};

use crate::rule::QuorumRule;
use crate::seats::SeatSet;
use refusal::Refusal;

// Quorums by number: f of 3 f + 1 seats may be faulty, and 2 f + 1 decide.
#[derive(Clone, Copy)]
pub struct CountRule {
    faults: u8,
    ghost few: { faults ≤ 21 },
}

impl CountRule {
    // The rule for f faulty seats, 0 to 21.
    pub fn new(faults: u8) -> Result<CountRule, Refusal>
        ensures { by (λ c. c.faults) result ≡ count_rule faults }
    {
        if faults > 21 {
            return Err(Refusal::FaultsOutOfRange);
        }
        Ok(CountRule { faults })
    }

    // How many seats may be faulty: the most of a tolerated set.
    pub fn faults(&self) -> u8
        ensures { result ≡ self.now.faults }
    {
        self.faults
    }

    // How many seats decide: the least of a quorum.
    pub fn decisive(&self) -> u8
        ensures { result ≡ 2 * self.now.faults + 1 }
    {
        2 * self.faults + 1
    }
}

impl QuorumRule for CountRule {
    const MOST: u8 = 64;

    ghost MOST = { 64 };

    ghost seats = { λ c. seats_for c.faults };

    ghost quorum = { λ c. count_quorum c.faults };

    ghost tolerated = { λ c. count_tolerated c.faults };

    ghost lawful = { λ rule. count_laws rule.faults rule.few };

    fn seats(&self) -> u8 {
        3 * self.faults + 1
    }

    fn is_quorum(&self, set: SeatSet) -> bool {
        set.is_within(self.seats()) && set.count() >= u32::from(self.decisive())
    }

    fn is_tolerated(&self, set: SeatSet) -> bool {
        set.is_within(self.seats()) && set.count() <= u32::from(self.faults)
    }
}
