// Admission: a block enters exactly when the rules justify it.
ghost use Rattle.std.specs.Prelude.{◌≡◌, ◌<◌, if◌then◌else◌, Ok, Err, vec_len};
ghost use Rattle.refusal.specs.declared.Refusal.TheVariants.{HeardSeatSilent};
ghost use Rattle.refusal.specs.Reasons.{replied};
ghost use Rattle.book.specs.Promises.{FastAdmission, SlowAdmission};
ghost use Rattle.book.specs.Admission.{has_view, shared_reasons, entered, unfit};
ghost use Rattle.letters.specs.Letters.{gathered, silent};
ghost use Rattle.book.specs.Designs.{design_of};

use crate::block::{Block, Kind, Proposal};
use crate::design::Design;
use crate::pages::Book;
use letters::reports::Reports;
use quorum::rule::QuorumRule;
use quorum::seats::SeatSet;
use refusal::Refusal;
use rotation::turns::Rotation;

// Whether there is a block of a view.
fn has_view(blocks: &[Block], view: u32) -> bool
    ensures { result ≡ has_view blocks.now view }
{
    blocks.iter().any(|block| block.view == view)
}

impl Book {
    // The reasons that fast and slow proposals share. Gives the leader of the view.
    fn screen<R: QuorumRule, T: Rotation>(
        &self,
        design: &Design<R, T>,
        proposal: &Proposal,
    ) -> Result<u8, Refusal>
        ensures { result ≡ replied (shared_reasons (design_of R.QuorumRule T.Rotation design.now) self.now.blocks.items proposal.now) (T.Rotation.leads design.now.rotation.now proposal.now.view) }
    {
        if !proposal.heard.is_within(design.rule.seats()) {
            return Err(Refusal::UnknownSeatInSet);
        }
        if proposal.parent as usize >= self.blocks.len() {
            return Err(Refusal::NoSuchBlock);
        }
        let Some(maker) = design.rotation.leader(proposal.view) else {
            return Err(Refusal::ViewOutOfRange);
        };
        if self.blocks.len() >= 256 {
            return Err(Refusal::BlocksFull);
        }
        if !design.open_set.holds(maker) && has_view(&self.blocks, proposal.view) {
            return Err(Refusal::LeaderHasProposed);
        }
        if !design.rule.is_quorum(proposal.heard) {
            return Err(Refusal::HeardNoQuorum);
        }
        Ok(maker)
    }

    // The block that a proposal becomes.
    fn proposed(
        &self,
        proposal: &Proposal,
        maker: u8,
        kind: Kind,
        reports: [u32; 64],
        certificate: u32,
    ) -> Block
        requires parent_held { proposal.now.parent < vec_len self.now.blocks }
        requires certificate_held { certificate < vec_len self.now.blocks }
        ensures { result ≡ entered self.now.blocks.items maker proposal.now kind reports certificate }
    {
        Block {
            view: proposal.view,
            parent: proposal.parent,
            payload: proposal.payload,
            maker,
            height: self.block(proposal.parent).height + 1,
            kind,
            heard: proposal.heard,
            reports,
            certificate,
            commit: self.commit_after(proposal.parent, certificate),
            voters: SeatSet { bits: 0 },
        }
    }

    // A block on the votes for its parent, of the view after the parent's.
    pub fn fast<R: QuorumRule, T: Rotation>(
        &mut self,
        design: &Design<R, T>,
        proposal: &Proposal,
    ) -> Result<u32, Refusal>
        ensures { FastAdmission (design_of R.QuorumRule T.Rotation design.now) self.old.blocks.items self.old.letters.items proposal.now result self.new.blocks.items self.new.letters.items }
    {
        let maker = self.screen(design, proposal)?;
        let parent = self.block(proposal.parent);
        if !proposal.heard.is_subset(parent.voters) {
            return Err(Refusal::HeardSeatSilent);
        }
        if parent.view + 1 != proposal.view {
            return Err(Refusal::ParentUnfit);
        }
        let block = self.proposed(proposal, maker, Kind::Fast, [0; 64], proposal.parent);
        Ok(self.enter(block))
    }

    // What the heard seats report to the proposal.
    fn reports(&self, proposal: &Proposal) -> Result<Reports, Refusal>
        ensures { result ≡ (if silent self.now.letters.items proposal.now.heard.bits proposal.now.view then Err HeardSeatSilent else Ok (gathered self.now.letters.items proposal.now.heard proposal.now.view)) }
    {
        Reports::gather(self.letters.as_slice(), proposal.heard, proposal.view)
    }

    // Whether the parent is not reported, or a reported block outranks it.
    fn is_unfit(&self, proposal: &Proposal, reports: &Reports) -> bool
        requires parent_held { proposal.now.parent < vec_len self.now.blocks }
        requires told { reports.now ≡ gathered self.now.letters.items proposal.now.heard proposal.now.view }
        ensures { result ≡ unfit self.now.blocks.items reports.now.blocks reports.now.heard.bits proposal.now.parent }
    {
        !reports.contains(proposal.parent) || self.is_outranked(&reports.blocks, proposal.parent)
    }

    // A block on the reports of the seats that left earlier views for its own.
    pub fn slow<R: QuorumRule, T: Rotation>(
        &mut self,
        design: &Design<R, T>,
        proposal: &Proposal,
    ) -> Result<u32, Refusal>
        ensures { SlowAdmission (design_of R.QuorumRule T.Rotation design.now) self.old.blocks.items self.old.letters.items proposal.now result self.new.blocks.items self.new.letters.items }
    {
        let maker = self.screen(design, proposal)?;
        let reports = self.reports(proposal)?;
        if self.is_unfit(proposal, &reports) {
            return Err(Refusal::ParentUnfit);
        }
        let certificate = self.slow_certificate(design.rule, proposal.parent, &reports);
        let block = self.proposed(proposal, maker, Kind::Slow, reports.blocks, certificate);
        Ok(self.enter(block))
    }
}
