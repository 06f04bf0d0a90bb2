// Walks along chains: what stands on what, and what may be committed.
ghost use Rattle.std.specs.Prelude.{◌≡◌, ◌<◌, vec_len};
ghost use Rattle.book.specs.Admission.{conflict, commit_after};
ghost use Rattle.book.specs.Chains.{left_of};
ghost use Rattle.book.specs.Pages.{at, chain, stands};

use crate::base::Base;
use crate::block::Block;
use crate::chain::Chain;
use crate::pages::Book;

impl Book {
    // The block with number b.
    pub(crate) fn block(&self, b: u32) -> &Block
        requires { b < vec_len self.now.blocks }
        ensures { result.now ≡ at self.now.blocks.items b }
    {
        &self.blocks[b as usize]
    }

    // The chain of block b, from b down.
    pub(crate) fn chain(&self, b: u32) -> Chain<'_>
        requires { b < vec_len self.now.blocks }
        ensures { left_of result ≡ chain self.now.blocks.items b }
    {
        Chain {
            blocks: self.blocks.as_slice(),
            next: Some(b),
        }
    }

    // Whether block b stands on block c.
    pub(crate) fn stands(&self, b: u32, c: u32) -> bool
        requires { b < vec_len self.now.blocks }
        ensures { result ≡ stands self.now.blocks.items b c }
    {
        self.chain(b).find(|x| *x <= c) == Some(c)
    }

    // Whether neither of two blocks stands on the other.
    pub(crate) fn conflict(&self, x: u32, y: u32) -> bool
        requires x_held { x < vec_len self.now.blocks }
        requires y_held { y < vec_len self.now.blocks }
        ensures { result ≡ conflict self.now.blocks.items x y }
    {
        !self.stands(x, y) && !self.stands(y, x)
    }

    // A block that may be committed.
    fn base(&self, number: u32) -> Base<'_>
        requires { number < vec_len self.now.blocks }
        ensures book { result.book.now ≡ self.now }
        ensures number { result.number ≡ number }
    {
        Base { book: self, number }
    }

    // The commit point of a block with this parent and certificate.
    pub(crate) fn commit_after(&self, parent: u32, certificate: u32) -> u32
        requires parent_held { parent < vec_len self.now.blocks }
        requires certificate_held { certificate < vec_len self.now.blocks }
        ensures { result ≡ commit_after self.now.blocks.items parent certificate }
    {
        let base = self.block(certificate).certificate;
        let commit = self.block(parent).commit;
        if self.block(commit).view < self.block(base).view && self.base(base).is_good(certificate) {
            base
        } else {
            commit
        }
    }
}
