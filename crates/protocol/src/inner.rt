// What a cluster holds besides its rule and its rotation.
ghost use Rattle.protocol.specs.Seated.{Seated};

use crate::seat::Seat;
use book::pages::Book;
use quorum::seats::SeatSet;

// The book, the open seats, and a record for each of 64 seats, a table that is there from the start.
#[derive(Drop)]
pub struct Inner {
    pub book: Book,
    pub open_set: SeatSet,
    pub seats: [Seat; 64],
    ghost seated: { Seated book.blocks.items seats },
}
