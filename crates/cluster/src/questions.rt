// What a cluster tells. Of what is not there it tells nothing.
ghost use Rattle.std.specs.Prelude.{◌≡◌};
ghost use Rattle.rotation.specs.Turns.{NextTurn};
ghost use Rattle.cluster.specs.Held.{state_of};
ghost use Rattle.cluster.specs.Told as told;

use crate::cluster::Cluster;
use book::pages::Book;
use protocol::seat::Seat;
use quorum::rule::QuorumRule;
use rotation::turns::Rotation;

impl<R: QuorumRule, T: Rotation> Cluster<R, T> {
    // The number of seats.
    pub fn seats(&self) -> u8
        ensures { result ≡ told.seats (state_of R.QuorumRule T.Rotation self.now) }
    {
        self.rule.seats()
    }

    // The book, which tells of blocks and letters.
    pub fn book(&self) -> &Book
        ensures { result.now ≡ self.now.inner.book }
    {
        &self.inner.book
    }

    // Whether a seat keeps the rules, and is not one of the open set.
    pub fn is_kept(&self, seat: u8) -> Option<bool>
        ensures { result ≡ told.kept (state_of R.QuorumRule T.Rotation self.now) seat }
    {
        if seat >= self.rule.seats() {
            return None;
        }
        Some(!self.inner.open_set.holds(seat))
    }

    // What a kept seat remembers: its view, its last vote and its tip.
    pub fn seat(&self, seat: u8) -> Option<Seat>
        ensures { result ≡ told.seat (state_of R.QuorumRule T.Rotation self.now) seat }
    {
        if seat >= self.rule.seats() || self.inner.open_set.holds(seat) {
            return None;
        }
        Some(self.inner.seats[seat as usize])
    }

    // The k-th block, from 0, that a kept seat has committed.
    pub fn commit(&self, seat: u8, k: u32) -> Option<u32>
        ensures { result ≡ told.commit (state_of R.QuorumRule T.Rotation self.now) seat k }
    {
        self.inner.book.on_chain(self.seat(seat)?.tip, k)
    }

    // The first view at or after `from` that the seat leads, as the rotation tells it.
    pub fn next_turn(&self, seat: u8, from: u32) -> Option<u32>
        ensures { NextTurn (T.Rotation.seats self.now.rotation) (T.Rotation.leads self.now.rotation) seat from result }
    {
        self.rotation.next_turn(seat, from)
    }
}
