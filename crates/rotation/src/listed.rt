// The listed rotation.
ghost use Rattle.std.specs.Prelude.{◌≡◌, ◌≤◌, true, vec_len};
ghost use Rattle.std.proofs.Common.{subst};
ghost use Rattle.refusal.specs.Outcomes.{by};
ghost use Rattle.rotation.specs.Lawful.{list_laws};
ghost use Rattle.rotation.specs.Listing.{all_below, listed, list_leads};

use crate::turns::{LAST_VIEW, Rotation, is_view};
use refusal::Refusal;

// A list of seats, repeated: view 1 is led by its first entry.
#[derive(Drop)]
pub struct Listed {
    seats: u8,
    order: Vec<u8>,
    ghost fit: { seats ≤ 64 },
    ghost some: { 1 ≤ vec_len order },
    ghost few: { vec_len order ≤ 256 },
    ghost seated: { all_below seats order.items ≡ true },
}

// Whether each seat of a list is below n.
fn are_below(order: &[u8], n: u8) -> bool
    ensures { result ≡ all_below n order.now }
{
    order.iter().all(|seat| *seat < n)
}

impl Listed {
    // The rotation of a number of seats by a list of 1 to 256 of them.
    pub fn new(seats: u8, order: Vec<u8>) -> Result<Listed, Refusal>
        ensures { by (λ t. (t.seats, t.order.items)) result ≡ listed seats order.items }
    {
        if seats == 0 || seats > 64 || order.is_empty() || order.len() > 256 {
            return Err(Refusal::RotationOutOfRange);
        }
        if !are_below(&order, seats) {
            return Err(Refusal::RotationOutOfRange);
        }
        Ok(Listed { seats, order })
    }

    // Who leads a view, counted from 1.
    fn entry(&self, view: u32) -> u8
        requires { 1 ≤ view }
        ensures { result ≡ list_leads self.now.order.items view }
    {
        self.order[(view - 1) as usize % self.order.len()]
    }
}

impl Rotation for Listed {
    ghost seats = { λ t. t.seats };

    ghost leads = { λ t. list_leads t.order.items };

    ghost lawful = { λ t. list_laws t.seats t.order.items t.fit (subst (λ n. 1 ≤ n) t.order.ok.0 t.some) t.seated };

    fn seats(&self) -> u8 {
        self.seats
    }

    fn leader(&self, view: u32) -> Option<u8> {
        if !is_view(view) {
            return None;
        }
        Some(self.entry(view))
    }

    // One pass of the list, from the given view on, meets every entry.
    fn next_turn(&self, seat: u8, from: u32) -> Option<u32> {
        if seat >= self.seats || !is_view(from) {
            return None;
        }
        let end = (from + self.order.len() as u32).min(LAST_VIEW + 1);
        (from..end).find(|view| self.entry(*view) == seat)
    }
}
