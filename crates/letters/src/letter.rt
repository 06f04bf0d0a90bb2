// Letters: what seats say on entering a view.
ghost use Rattle.std.specs.Prelude.{◌≡◌};
ghost use Rattle.letters.specs.Letters.{written, latest};

// What a seat says on entering a view: the last block that it voted for.
#[derive(Clone, Copy)]
pub struct Letter {
    pub seat: u8,
    pub view: u32,
    pub block: u32,
}

impl Letter {
    // Whether the letter is from a seat and for a view.
    fn is_from(&self, seat: u8, view: u32) -> bool
        ensures { result ≡ written self.now seat view }
    {
        self.seat == seat && self.view == view
    }
}

// The block that a seat's latest letter for a view names.
pub fn latest(letters: &[Letter], seat: u8, view: u32) -> Option<u32>
    ensures { result ≡ latest letters.now seat view }
{
    letters
        .iter()
        .rev()
        .find(|letter| letter.is_from(seat, view))
        .map(|letter| letter.block)
}
