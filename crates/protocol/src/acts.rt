// What seats do: kept ones vote, commit and leave views, open ones say anything.
ghost use Rattle.std.specs.Prelude.{◌≡◌, ℕ, ◌<◌, Bool, ◌&&◌, [], ◌∷◌, length, replicate, if◌then◌else◌, vec_len, OnOk, nat_le, nat_lt};
ghost use Rattle.refusal.specs.Reasons.{replied};
ghost use Rattle.refusal.specs.declared.Refusal.TheVariants.{CommitConflict};
ghost use Rattle.book.specs.Admission.{conflict};
ghost use Rattle.book.specs.Designs.{design_of};
ghost use Rattle.book.specs.Pages.{at, stands};
ghost use Rattle.protocol.specs.Calls.{reply, after, show_reasons, shown, leave_reasons};
ghost use Rattle.protocol.specs.Held.{under};
ghost use Rattle.protocol.specs.State.{idle, seat_at};
ghost use Rattle.protocol.specs.declared.call.Call.TheVariants.{Fast, Slow, Show, Expire, Vote, Letter as Write};

use crate::inner::Inner;
use crate::seat::Seat;
use book::block::Proposal;
use book::design::Design;
use book::pages::Book;
use letters::letter::Letter;
use quorum::rule::QuorumRule;
use quorum::seats::SeatSet;
use refusal::Refusal;
use rotation::turns::{Rotation, is_view};

impl Inner {
    // A book and seats that have done nothing.
    pub fn new(book: Book, open_set: SeatSet) -> Inner
        ensures book { result.book ≡ book }
        ensures seats { result.seats ≡ replicate 64 idle }
        ensures open_set { result.open_set ≡ open_set }
    {
        let seat = Seat {
            view: 0,
            vote: 0,
            tip: 0,
        };
        Inner {
            book,
            open_set,
            seats: [seat; 64],
        }
    }

    // The view of a block, or 0 where there is none.
    fn view_of(&self, b: u32) -> u32
        ensures { result ≡ (at self.now.book.blocks.items b).view }
    {
        self.book.find(b).map_or(0, |block| block.view)
    }

    // The tip of a seat after it was shown a commit point, which is taken if it stands on the tip.
    fn follow(&self, tip: u32, commit: u32) -> Result<u32, Refusal>
        requires tip_held { tip < vec_len self.now.book.blocks }
        requires commit_held { commit < vec_len self.now.book.blocks }
        ensures { result ≡ replied ((conflict self.now.book.blocks.items commit tip, CommitConflict) ∷ []) (if stands self.now.book.blocks.items commit tip then commit else tip) }
    {
        if self.book.stands_on(commit, tip) == Some(true) {
            return Ok(commit);
        }
        if self.book.stands_on(tip, commit) == Some(true) {
            return Ok(tip);
        }
        Err(Refusal::CommitConflict)
    }

    // Whether a seat votes for a block of this view: its own or a later one, and later than its last vote's.
    fn votes(&self, seat: &Seat, view: u32) -> bool
        ensures { result ≡ nat_le seat.now.view view && nat_lt (at self.now.book.blocks.items seat.now.vote).view view }
    {
        view >= seat.view && view > self.view_of(seat.vote)
    }

    // The rule and the rotation with the open seats, as the book asks for them.
    fn design<'a, R: QuorumRule, T: Rotation>(
        &self,
        rule: &'a R,
        rotation: &'a T,
    ) -> Design<'a, R, T>
        ensures { design_of R.QuorumRule T.Rotation result ≡ (under R.QuorumRule rule.now (T.Rotation.leads rotation.now) self.now).design }
    {
        Design {
            rule,
            rotation,
            open_set: self.open_set,
        }
    }

    // A proposal on the votes for its parent.
    pub fn fast<R: QuorumRule, T: Rotation>(
        &mut self,
        rule: &R,
        rotation: &T,
        proposal: &Proposal,
    ) -> Result<u32, Refusal>
        ensures reply { result ≡ reply (under R.QuorumRule rule.now (T.Rotation.leads rotation.now) self.old) (Fast proposal.now) }
        ensures after { under R.QuorumRule rule.now (T.Rotation.leads rotation.now) self.new ≡ after (under R.QuorumRule rule.now (T.Rotation.leads rotation.now) self.old) (Fast proposal.now) }
    {
        let design = self.design(rule, rotation);
        self.book.fast(&design, proposal)
    }

    // A proposal on reports.
    pub fn slow<R: QuorumRule, T: Rotation>(
        &mut self,
        rule: &R,
        rotation: &T,
        proposal: &Proposal,
    ) -> Result<u32, Refusal>
        ensures reply { result ≡ reply (under R.QuorumRule rule.now (T.Rotation.leads rotation.now) self.old) (Slow proposal.now) }
        ensures after { under R.QuorumRule rule.now (T.Rotation.leads rotation.now) self.new ≡ after (under R.QuorumRule rule.now (T.Rotation.leads rotation.now) self.old) (Slow proposal.now) }
    {
        let design = self.design(rule, rotation);
        self.book.slow(&design, proposal)
    }

    // Whether a seat may be shown a block. Gives the tip that it has then.
    fn tip_after<R: QuorumRule>(&self, rule: &R, seat: u8, block: u32) -> Result<u32, Refusal>
        ensures reply { (leads : ℕ → ℕ) → result ≡ replied (show_reasons (under R.QuorumRule rule.now leads self.now) seat block) (shown (under R.QuorumRule rule.now leads self.now) seat block).tip }
        ensures held { OnOk result ((seat < 64) × (block < length self.now.book.blocks.items)) }
    {
        if seat >= rule.seats() {
            return Err(Refusal::NoSuchSeat);
        }
        let Some(shown) = self.book.find(block) else {
            return Err(Refusal::NoSuchBlock);
        };
        if self.open_set.holds(seat) {
            return Err(Refusal::SeatIsOpen);
        }
        self.follow(self.seats[seat as usize].tip, shown.commit)
    }

    // Shows a block to a seat. Gives 1 for a vote, else 0.
    pub fn show<R: QuorumRule>(&mut self, rule: &R, seat: u8, block: u32) -> Result<u32, Refusal>
        ensures reply { (leads : ℕ → ℕ) → result ≡ reply (under R.QuorumRule rule.now leads self.old) (Show seat block) }
        ensures after { (leads : ℕ → ℕ) → under R.QuorumRule rule.now leads self.new ≡ after (under R.QuorumRule rule.now leads self.old) (Show seat block) }
    {
        let tip = self.tip_after(rule, seat, block)?;
        let view = self.view_of(block);
        let before = self.seats[seat as usize];
        if !self.votes(&before, view) {
            let it = &mut self.seats[seat as usize];
            it.tip = tip;
            return Ok(0);
        }
        self.book.add_vote(seat, block)?;
        let it = &mut self.seats[seat as usize];
        it.view = view;
        it.vote = block;
        it.tip = tip;
        Ok(1)
    }

    // Whether a seat may leave its view for this one. Gives its last vote.
    fn leaves<R: QuorumRule>(&self, rule: &R, seat: u8, view: u32) -> Result<u32, Refusal>
        ensures reply { (leads : ℕ → ℕ) → result ≡ replied (leave_reasons (under R.QuorumRule rule.now leads self.now) seat view) (seat_at (under R.QuorumRule rule.now leads self.now) seat).vote }
        ensures seated { OnOk result (seat < 64) }
    {
        if seat >= rule.seats() {
            return Err(Refusal::NoSuchSeat);
        }
        if !is_view(view) {
            return Err(Refusal::ViewOutOfRange);
        }
        if self.open_set.holds(seat) {
            return Err(Refusal::SeatIsOpen);
        }
        let it = &self.seats[seat as usize];
        if view <= it.view {
            return Err(Refusal::ViewNotAboveSeat);
        }
        Ok(it.vote)
    }

    // A seat leaves its view for a later one, and a letter names its last vote. Gives that block.
    pub fn expire<R: QuorumRule>(&mut self, rule: &R, seat: u8, view: u32) -> Result<u32, Refusal>
        ensures reply { (leads : ℕ → ℕ) → result ≡ reply (under R.QuorumRule rule.now leads self.old) (Expire seat view) }
        ensures after { (leads : ℕ → ℕ) → under R.QuorumRule rule.now leads self.new ≡ after (under R.QuorumRule rule.now leads self.old) (Expire seat view) }
    {
        let vote = self.leaves(rule, seat, view)?;
        self.book.add_letter(Letter {
            seat,
            view,
            block: vote,
        })?;
        self.seats[seat as usize].view = view;
        Ok(vote)
    }

    // An open seat votes for a block. Gives the number of voters.
    pub fn vote<R: QuorumRule>(&mut self, rule: &R, seat: u8, block: u32) -> Result<u32, Refusal>
        ensures reply { (leads : ℕ → ℕ) → result ≡ reply (under R.QuorumRule rule.now leads self.old) (Vote seat block) }
        ensures after { (leads : ℕ → ℕ) → under R.QuorumRule rule.now leads self.new ≡ after (under R.QuorumRule rule.now leads self.old) (Vote seat block) }
    {
        if seat >= rule.seats() {
            return Err(Refusal::NoSuchSeat);
        }
        if block >= self.book.blocks() {
            return Err(Refusal::NoSuchBlock);
        }
        if !self.open_set.holds(seat) {
            return Err(Refusal::SeatIsKept);
        }
        self.book.add_vote(seat, block)
    }

    // An open seat writes a letter. Gives the number of letters.
    pub fn letter<R: QuorumRule>(&mut self, rule: &R, letter: Letter) -> Result<u32, Refusal>
        ensures reply { (leads : ℕ → ℕ) → result ≡ reply (under R.QuorumRule rule.now leads self.old) (Write letter) }
        ensures after { (leads : ℕ → ℕ) → under R.QuorumRule rule.now leads self.new ≡ after (under R.QuorumRule rule.now leads self.old) (Write letter) }
    {
        if letter.seat >= rule.seats() {
            return Err(Refusal::NoSuchSeat);
        }
        if letter.block >= self.book.blocks() {
            return Err(Refusal::NoSuchBlock);
        }
        if !is_view(letter.view) {
            return Err(Refusal::ViewOutOfRange);
        }
        if !self.open_set.holds(letter.seat) {
            return Err(Refusal::SeatIsKept);
        }
        self.book.add_letter(letter)
    }
}
