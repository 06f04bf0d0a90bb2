// Round robin.
ghost use Rattle.std.specs.Prelude.{◌≡◌, ◌<◌, ◌≤◌};
ghost use Rattle.refusal.specs.Outcomes.{by};
ghost use Rattle.rotation.specs.Lawful.{robin_laws};
ghost use Rattle.rotation.specs.Robin.{robin, robin_from, robin_leads};

use crate::turns::{LAST_VIEW, Rotation, is_view};
use refusal::Refusal;

// The seats lead one after another, from a first seat on.
#[derive(Clone, Copy)]
pub struct RoundRobin {
    seats: u8,
    first: u8,
    ghost fit: { seats ≤ 64 },
    ghost seated: { first < seats },
}

impl RoundRobin {
    // Where no first seat is named, seat 1 leads view 1, or seat 0 where it is alone.
    pub fn new(seats: u8) -> Result<RoundRobin, Refusal>
        ensures { by (λ t. (t.seats, t.first)) result ≡ robin seats }
    {
        if seats == 0 {
            return Err(Refusal::RotationOutOfRange);
        }
        RoundRobin::starting_at(seats, 1 % seats)
    }

    // The round robin in which the named seat leads view 1.
    pub fn starting_at(seats: u8, first: u8) -> Result<RoundRobin, Refusal>
        ensures { by (λ t. (t.seats, t.first)) result ≡ robin_from seats first }
    {
        if seats > 64 || first >= seats {
            return Err(Refusal::RotationOutOfRange);
        }
        Ok(RoundRobin { seats, first })
    }
}

impl Rotation for RoundRobin {
    ghost seats = { λ t. t.seats };

    ghost leads = { λ t. robin_leads t.seats t.first };

    ghost lawful = { λ t. robin_laws t.seats t.first t.fit t.seated };

    fn seats(&self) -> u8 {
        self.seats
    }

    fn leader(&self, view: u32) -> Option<u8> {
        if !is_view(view) {
            return None;
        }
        Some(((u32::from(self.first) + view - 1) % u32::from(self.seats)) as u8)
    }

    fn next_turn(&self, seat: u8, from: u32) -> Option<u32> {
        if seat >= self.seats {
            return None;
        }
        let current = self.leader(from)?;
        let turn = from + u32::from((seat + self.seats - current) % self.seats);
        if turn > LAST_VIEW { None } else { Some(turn) }
    }
}
