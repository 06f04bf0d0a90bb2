// The weight rule.
ghost use Rattle.std.specs.Prelude.{◌≡◌, ◌*◌, ◌<◌, ◌≤◌, length, vec_len};
ghost use Rattle.std.proofs.Common.{subst};
ghost use Rattle.refusal.specs.Outcomes.{by};
ghost use Rattle.quorum.specs.Seats.{total_weight, weight_of};
ghost use Rattle.quorum.specs.Weighing.{LeastQuorum, MostTolerated, weight_rule, weight_quorum, weight_tolerated};
ghost use Rattle.quorum.specs.Heavy.{weight_laws};

use crate::rule::QuorumRule;
use crate::seats::SeatSet;
use refusal::Refusal;

// Quorums by weight: seats of more than two thirds of the total decide, and less than a third is tolerated.
#[derive(Drop)]
pub struct WeightRule {
    weights: Vec<u16>,
    total: u32,
    ghost few: { vec_len weights ≤ 32 },
    ghost summed: { total ≡ total_weight weights.items },
    ghost heavy: { 0 < total },
    ghost bounded: { total ≤ 65535 * 32 },
}

// The sum of the weights.
fn sum(weights: &[u16]) -> u32
    requires { length weights.now ≤ 32 }
    ensures value { result ≡ total_weight weights.now }
    ensures bound { result ≤ 65535 * 32 }
{
    weights.iter().map(|weight| u32::from(*weight)).sum()
}

impl WeightRule {
    // The rule of these weights, seat by seat: 1 to 32 of them, not all 0.
    pub fn new(weights: Vec<u16>) -> Result<WeightRule, Refusal>
        ensures { by (λ w. w.weights.items) result ≡ weight_rule weights.items }
    {
        if weights.len() > 32 {
            return Err(Refusal::WeightsOutOfRange);
        }
        let total = sum(&weights);
        if total == 0 {
            return Err(Refusal::WeightsOutOfRange);
        }
        Ok(WeightRule { weights, total })
    }

    // What all seats weigh together.
    pub fn total(&self) -> u32
        ensures { result ≡ total_weight self.now.weights.items }
    {
        self.total
    }

    // The least weight that decides.
    pub fn decisive(&self) -> u32
        ensures { LeastQuorum (total_weight self.now.weights.items) result }
    {
        2 * self.total / 3 + 1
    }

    // The most weight that is tolerated.
    pub fn tolerable(&self) -> u32
        ensures { MostTolerated (total_weight self.now.weights.items) result }
    {
        (self.total - 1) / 3
    }

    // What the seats of a set weigh together.
    pub fn weight(&self, set: SeatSet) -> u32
        ensures { result ≡ weight_of self.now.weights.items set.bits }
    {
        let mut sum = 0;
        // a `for`, since the chain `enumerate`, `filter`, `map`, `sum` gets no proof
        for (seat, weight) in self.weights.iter().enumerate() {
            if set.holds(seat as u8) {
                sum += u32::from(*weight);
            }
        }
        sum
    }
}

impl QuorumRule for WeightRule {
    const MOST: u8 = 32;

    ghost MOST = { 32 };

    ghost seats = { λ w. length w.weights.items };

    ghost quorum = { λ w. weight_quorum w.weights.items };

    ghost tolerated = { λ w. weight_tolerated w.weights.items };

    ghost lawful = { λ rule.
        weight_laws rule.weights.items (subst (λ n. n ≤ 32) rule.weights.ok.0 rule.few)
        (subst (λ x. 0 < x) rule.summed rule.heavy) };

    fn seats(&self) -> u8 {
        self.weights.len() as u8
    }

    fn is_quorum(&self, set: SeatSet) -> bool {
        set.is_within(self.seats()) && 3 * u64::from(self.weight(set)) > 2 * u64::from(self.total())
    }

    fn is_tolerated(&self, set: SeatSet) -> bool {
        set.is_within(self.seats()) && 3 * u64::from(self.weight(set)) < u64::from(self.total())
    }
}
