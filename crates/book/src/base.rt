// What speaks against committing a block.
ghost use Rattle.std.specs.Prelude.{◌≡◌, ◌<◌, nat_lt, vec_len};
ghost use Rattle.book.specs.Admission.{rival, told_rival, clashes, any_of, good};
ghost use Rattle.book.specs.Pages.{at, chain};

use crate::block::Kind;
use crate::pages::Book;

// A block of a book that may be committed. Other numbers are held to the book by each function's `requires`: of two
// numbers with their books each would have to ask that the books are one.
#[derive(Clone, Copy)]
pub(crate) struct Base<'a> {
    pub(crate) book: &'a Book,
    pub(crate) number: u32,
    ghost held: { number < vec_len book.now.blocks },
}

impl Base<'_> {
    // Whether x, reported to block a, is a rival of a's parent that conflicts with the base.
    fn is_rival(&self, a: u32, x: u32) -> bool
        requires a_held { a < vec_len self.now.book.now.blocks }
        requires a_later { 0 < a }
        requires x_held { x < vec_len self.now.book.now.blocks }
        ensures { result ≡ rival self.now.book.now.blocks.items self.now.number a x }
    {
        let book = self.book;
        let parent = book.block(a).parent;
        book.block(x).view == book.block(parent).view
            && x != parent
            && book.conflict(x, self.number)
    }

    // Whether a seat was heard by block a, and reported such a rival to it.
    fn told_rival(&self, a: u32, seat: u8) -> bool
        requires a_held { a < vec_len self.now.book.now.blocks }
        requires a_later { 0 < a }
        ensures { result ≡ told_rival self.now.book.now.blocks.items self.now.number a seat }
    {
        let block = self.book.block(a);
        block.heard.holds(seat) && self.is_rival(a, block.reports[seat as usize])
    }

    // Whether the base is of an earlier view than block a.
    fn is_before(&self, a: u32) -> bool
        requires { a < vec_len self.now.book.now.blocks }
        ensures { result ≡ nat_lt (at self.now.book.now.blocks.items self.now.number).view (at self.now.book.now.blocks.items a).view }
    {
        self.book.block(self.number).view < self.book.block(a).view
    }

    // Whether block a is slow, is later than the base, and heard of such a rival.
    fn clashes(&self, a: u32) -> bool
        requires { a < vec_len self.now.book.now.blocks }
        ensures { result ≡ clashes self.now.book.now.blocks.items self.now.number a }
    {
        self.book.block(a).kind == Kind::Slow
            && self.is_before(a)
            && (0..64).any(|seat| self.told_rival(a, seat))
    }

    // Whether a block on the chain of the top clashes with the base. Blocks no later than the base need no look.
    fn has_clash(&self, top: u32) -> bool
        requires { top < vec_len self.now.book.now.blocks }
        ensures { result ≡ any_of (clashes self.now.book.now.blocks.items self.now.number) (chain self.now.book.now.blocks.items top) }
    {
        self.book
            .chain(top)
            .take_while(|a| self.is_before(*a))
            .any(|a| self.clashes(a))
    }

    // Whether the base is good to commit under the top, which certifies it.
    pub(crate) fn is_good(&self, top: u32) -> bool
        requires { top < vec_len self.now.book.now.blocks }
        ensures { result ≡ good self.now.book.now.blocks.items top self.now.number }
    {
        self.book.block(top).view == self.book.block(self.number).view + 1 || !self.has_clash(top)
    }
}
