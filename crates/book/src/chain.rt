// Chains: what a block stands on.
ghost use Rattle.std.specs.Prelude.{◌<◌, length};
ghost use Rattle.std.specs.Option.{ForSome};
ghost use Rattle.book.specs.Known.{ParentsBefore};

use crate::block::Block;

// The chain of a block, from the block down: its number, its parent's, and so on to the first block's.
#[derive(Drop)]
pub(crate) struct Chain<'a> {
    pub(crate) blocks: &'a [Block],
    pub(crate) next: Option<u32>,
    ghost parents_before: { ParentsBefore blocks.now },
    ghost held: { ForSome next (λ b. b < length blocks.now) },
}

impl Iterator for Chain<'_> {
    type Item = u32;

    ghost use Rattle.std.specs.Iterator.{YieldsFirst, item_count};
    ghost use Rattle.book.specs.Chains.{left_of};

    ghost next_gives = { YieldsFirst left_of };

    ghost remaining = { item_count left_of };

    fn next(&mut self) -> Option<u32> {
        let b = self.next?;
        self.next = if b == 0 {
            None
        } else {
            Some(self.blocks[b as usize].parent)
        };
        Some(b)
    }
}
