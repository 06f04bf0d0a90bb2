// What a book holds.
ghost use Rattle.std.specs.Prelude.{◌≡◌};
ghost use Rattle.book.specs.Questions.{origin_told, report_told};

use quorum::seats::SeatSet;

// How a block was justified. The first block needs no justification.
#[derive(Clone, Copy, Debug, PartialEq, Eq)]
pub enum Kind {
    First,
    Fast,
    Slow,
}

// One proposal. Blocks are known by their numbers, in the order in which they entered; block 0 is the first. What a
// block of its kind lacks is 0, since chains and rules read the fields of every block; `origin` and `report` tell them
// as `Option`s.
#[derive(Clone, Copy)]
pub struct Block {
    pub view: u32,
    // the block that it stands on
    pub(crate) parent: u32,
    pub payload: u64,
    // the seat that proposed it, the leader of its view
    pub(crate) maker: u8,
    // how many blocks it stands on, itself left out
    pub height: u32,
    pub kind: Kind,
    // the seats that its maker heard from
    pub(crate) heard: SeatSet,
    // what each heard seat reported to a slow block, by seat; a fast block has heard seats and no reports
    pub(crate) reports: [u32; 64],
    // the block that its certificate is for
    pub certificate: u32,
    // the latest block that it shows to be committed
    pub commit: u32,
    // the seats that voted for it
    pub voters: SeatSet,
}

// What the first block has none of.
#[derive(Clone, Copy, Debug, PartialEq, Eq)]
pub struct Origin {
    // the block that it stands on
    pub parent: u32,
    // the seat that proposed it, the leader of its view
    pub maker: u8,
    // the seats that its maker heard from
    pub heard: SeatSet,
}

impl Block {
    // Where it comes from; the first block comes from nowhere.
    pub fn origin(&self) -> Option<Origin>
        ensures { result ≡ origin_told self.now }
    {
        if self.kind == Kind::First {
            return None;
        }
        Some(Origin {
            parent: self.parent,
            maker: self.maker,
            heard: self.heard,
        })
    }

    // What a seat reported to it, where it is slow and heard the seat.
    pub fn report(&self, seat: u8) -> Option<u32>
        ensures { result ≡ report_told self.now seat }
    {
        (self.kind == Kind::Slow && self.heard.holds(seat)).then(|| self.reports[seat as usize])
    }
}

// What a leader asks to have entered.
#[derive(Clone, Copy)]
pub struct Proposal {
    pub view: u32,
    pub parent: u32,
    pub payload: u64,
    pub heard: SeatSet,
}
