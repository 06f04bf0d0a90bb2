// The rotation: which seat leads each view, and when a seat leads next.
ghost use Rattle.std.specs.Prelude.{◌≡◌, ℕ};
ghost use Rattle.rotation.specs.Laws.{RotationLaws};
ghost use Rattle.rotation.specs.Turns.{is_view, leader_of, NextTurn, OneNextTurn};

// Views are numbered from 1 to this one.
pub const LAST_VIEW: u32 = 1_000_000;

// Whether a number is that of a view.
pub fn is_view(view: u32) -> bool
    ensures { result ≡ is_view view }
{
    (1..=LAST_VIEW).contains(&view)
}

// Anything that tells its number of seats, 1 to 64, and for each view the seat that leads it. Asking changes nothing,
// and a repeated question gets the same reply. Of a view out of range, or a seat that it lacks, it says nothing.
pub trait Rotation {
    ghost seats: { Self → ℕ };

    ghost leads: { Self → ℕ → ℕ };

    // The number of seats.
    fn seats(&self) -> u8
        ensures { result ≡ seats self.now };

    // The seat that leads a view.
    fn leader(&self, view: u32) -> Option<u8>
        ensures { result ≡ leader_of (leads self.now) view };

    // The first view at or after `from` that the seat leads.
    fn next_turn(&self, seat: u8, from: u32) -> Option<u32>
        ensures { NextTurn (seats self.now) (leads self.now) seat from result };

    ghost lawful: { (rotation : Self) → RotationLaws (seats rotation) (leads rotation) };
}

// What is told of a next turn can only be one thing.
pub fn next_turn_is_one()
    ensures { OneNextTurn }
{}
