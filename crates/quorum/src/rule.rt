// The quorum rule: which sets of seats decide, and which may all be faulty at once.
ghost use Rattle.std.specs.Prelude.{◌≡◌, ℕ, Bool};
ghost use Rattle.quorum.specs.Laws.{QuorumLaws};

use crate::seats::SeatSet;

// Anything that tells its number of seats, its quorums and its tolerated sets, and shows the laws of a quorum rule.
// Asking changes nothing, and a repeated question gets the same reply.
pub trait QuorumRule {
    // the most seats that this kind of rule is made for
    const MOST: u8;

    ghost MOST: { ℕ };

    ghost seats: { Self → ℕ };

    ghost quorum: { Self → ℕ → Bool };

    ghost tolerated: { Self → ℕ → Bool };

    // The associated constant, for those who hold a rule of a kind that they do not know.
    fn most_seats() -> u8
        ensures { result ≡ MOST }
    {
        Self::MOST
    }

    // The number of seats.
    fn seats(&self) -> u8
        ensures { result ≡ seats self.now };

    // Whether the seats of a set decide.
    fn is_quorum(&self, set: SeatSet) -> bool
        ensures { result ≡ quorum self.now set.bits };

    // Whether the seats of a set may all be faulty at once.
    fn is_tolerated(&self, set: SeatSet) -> bool
        ensures { result ≡ tolerated self.now set.bits };

    ghost lawful: { (rule : Self) → QuorumLaws MOST (seats rule) (quorum rule) (tolerated rule) };
}
