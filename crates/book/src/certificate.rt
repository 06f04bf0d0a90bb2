// Ranks, and the certificate of a slow block.
ghost use Rattle.std.specs.Prelude.{◌≡◌, ℕ, ◌<◌, vec_len, slice_index};
ghost use Rattle.book.specs.Admission.{any_below, outranks, rank_of, slow_certificate};

use crate::pages::Book;
use highest::highest;
use letters::reports::Reports;
use quorum::rule::QuorumRule;
use std::array;

impl Book {
    // A block's view and its certificate's view.
    pub(crate) fn rank_of(&self, b: u32) -> (u32, u32)
        requires { b < vec_len self.now.blocks }
        ensures { result ≡ rank_of self.now.blocks.items b }
    {
        let block = self.block(b);
        (block.view, self.block(block.certificate).view)
    }

    // Whether a report outranks the parent: the highest of them does, if any.
    pub(crate) fn is_outranked(&self, reports: &[u32; 64], parent: u32) -> bool
        requires parent_held { parent < vec_len self.now.blocks }
        requires reports_held { (s : ℕ) → slice_index reports.now s < vec_len self.now.blocks }
        ensures { result ≡ any_below (λ s. outranks self.now.blocks.items (slice_index reports.now s) parent) 64 }
    {
        // `from_fn`, since an array's `map` goes through a row of `Option`s
        let ranks: [(u32, u32); 64] = array::from_fn(|seat| self.rank_of(reports[seat]));
        highest(&ranks).is_some_and(|place| ranks[place] > self.rank_of(parent))
    }

    // The certificate of a slow block: what a quorum of its reports names, where that is on the parent's chain and
    // later than the parent's certificate; else the parent's.
    pub(crate) fn slow_certificate<R: QuorumRule>(
        &self,
        rule: &R,
        parent: u32,
        reports: &Reports,
    ) -> u32
        requires { parent < vec_len self.now.blocks }
        ensures { result ≡ slow_certificate (R.QuorumRule.quorum rule.now) self.now.blocks.items parent reports.now.blocks reports.now.heard.bits }
    {
        let inherited = self.block(parent).certificate;
        let Some(block) = reports.named(rule) else {
            return inherited;
        };
        if self.stands(parent, block) && self.block(inherited).view < self.block(block).view {
            block
        } else {
            inherited
        }
    }
}
