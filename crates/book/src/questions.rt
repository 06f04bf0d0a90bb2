// What a book tells. Of what is not there it tells nothing.
ghost use Rattle.std.specs.Prelude.{◌≡◌, ◌<◌, ◌≤◌, length, if◌then◌else◌, Some, None, vec_len, MatchOption, nat_lt, slice_index};
ghost use Rattle.book.specs.Admission.{rank_of};
ghost use Rattle.book.specs.Pages.{at, chain, stands};
ghost use Rattle.book.specs.Questions.{stands_told, on_chain, highest_view};

use crate::block::Block;
use crate::pages::Book;
use highest::highest;

impl Book {
    // The number of blocks.
    pub fn blocks(&self) -> u32
        ensures { result ≡ length self.now.blocks.items }
    {
        self.blocks.len() as u32
    }

    // The number of letters.
    pub fn letters(&self) -> u32
        ensures { result ≡ length self.now.letters.items }
    {
        self.letters.len() as u32
    }

    // A block, where there is one.
    pub fn find(&self, b: u32) -> Option<&Block>
        ensures { MatchOption result (length self.now.blocks.items ≤ b) (λ x. (b < length self.now.blocks.items) × (x.now ≡ at self.now.blocks.items b)) }
    {
        self.blocks.get(b as usize)
    }

    // A block's view and its certificate's view.
    pub fn rank(&self, b: u32) -> Option<(u32, u32)>
        ensures { result ≡ (if nat_lt b (length self.now.blocks.items) then Some (rank_of self.now.blocks.items b) else None) }
    {
        (b < self.blocks()).then(|| self.rank_of(b))
    }

    // Whether block b stands on block c.
    pub fn stands_on(&self, b: u32, c: u32) -> Option<bool>
        ensures { result ≡ stands_told self.now.blocks.items b c }
    {
        (b < self.blocks() && c < self.blocks()).then(|| self.stands(b, c))
    }

    // The k-th block, from the first block up, of the chain of b.
    pub fn on_chain(&self, b: u32, k: u32) -> Option<u32>
        ensures { result ≡ on_chain self.now.blocks.items b k }
    {
        if b >= self.blocks() {
            return None;
        }
        let above = self.chain(b).count().checked_sub(k as usize + 1)?;
        self.chain(b).nth(above)
    }

    // The highest view of a block in the book.
    pub fn highest_view(&self) -> Option<u32>
        ensures { result ≡ Some (highest_view self.now.blocks.items) }
    {
        // a row on the stack, since nothing allocates after opening; `from_fn` would ask for 256 blocks, held or not
        let mut views = [0; 256];
        for (b, block) in self.blocks.iter().enumerate() {
            views[b] = block.view;
        }
        let place = highest(&views)?;
        Some(views[place])
    }
}
