// How a book begins, and all that changes in it: blocks and letters are added, and votes.
ghost use Rattle.std.specs.Prelude.{◌≡◌, ◌<◌, min, [], ◌∷◌, ◌++◌, length, IfOk, vec_len};
ghost use Rattle.book.specs.Admission.{Design};
ghost use Rattle.book.specs.Rules.{WellMade};
ghost use Rattle.book.specs.Changes.{vote_reply, vote_after, letter_reply, letter_after};
ghost use Rattle.book.specs.Known.{Enters};
ghost use Rattle.book.specs.Pages.{genesis};

use crate::block::{Block, Kind};
use crate::pages::Book;
use letters::letter::Letter;
use quorum::seats::SeatSet;
use refusal::Refusal;
use rotation::turns::is_view;
use std::alloc::{AllocError, Global};

impl Book {
    // A book of a cluster of n seats, with the first block and no letters. This alone can want memory.
    pub fn new(heap: Global, n: u8) -> Result<Book, AllocError>
        ensures pages { IfOk result (λ b. (b.blocks.items ≡ genesis (min n 64) ∷ []) × (b.letters.items ≡ [])) }
        ensures lawful { IfOk result (λ b. (d : Design) → WellMade d b.blocks.items) }
    {
        let mut blocks = Vec::with_capacity(heap, 256)?;
        let letters = Vec::with_capacity(heap, 512)?;
        blocks.push_reserved(Block {
            view: 0,
            parent: 0,
            payload: 0,
            maker: 0,
            height: 0,
            kind: Kind::First,
            heard: SeatSet { bits: 0 },
            reports: [0; 64],
            certificate: 0,
            commit: 0,
            voters: SeatSet::everyone(n),
        });
        Ok(Book { blocks, letters })
    }

    // Adds a block at the end. Gives its number.
    pub(crate) fn enter(&mut self, block: Block) -> u32
        requires room { vec_len self.old.blocks < 256 }
        requires enters { Enters self.old.blocks.items block }
        ensures number { result ≡ length self.old.blocks.items }
        ensures blocks { self.new.blocks.items ≡ self.old.blocks.items ++ block ∷ [] }
        ensures letters { self.new.letters.items ≡ self.old.letters.items }
    {
        let number = self.blocks.len() as u32;
        self.blocks.push_reserved(block);
        number
    }

    // Adds a seat to a block's voters. Gives the number of voters.
    pub fn add_vote(&mut self, seat: u8, block: u32) -> Result<u32, Refusal>
        ensures reply { result ≡ vote_reply self.old.blocks.items seat block }
        ensures blocks { self.new.blocks.items ≡ vote_after self.old.blocks.items seat block }
        ensures letters { self.new.letters.items ≡ self.old.letters.items }
        ensures lawful { (d : Design) → WellMade d self.old.blocks.items → WellMade d self.new.blocks.items }
    {
        if block as usize >= self.blocks.len() {
            return Err(Refusal::NoSuchBlock);
        }
        let voters = self.block(block).voters.with(seat);
        self.blocks[block as usize].voters = voters;
        Ok(voters.count())
    }

    // Adds a letter. Gives the number of letters.
    pub fn add_letter(&mut self, letter: Letter) -> Result<u32, Refusal>
        ensures reply { result ≡ letter_reply self.old.blocks.items self.old.letters.items letter }
        ensures blocks { self.new.blocks.items ≡ self.old.blocks.items }
        ensures letters { self.new.letters.items ≡ letter_after self.old.blocks.items self.old.letters.items letter }
    {
        if letter.block as usize >= self.blocks.len() {
            return Err(Refusal::NoSuchBlock);
        }
        if !is_view(letter.view) {
            return Err(Refusal::ViewOutOfRange);
        }
        if self.block(letter.block).view >= letter.view {
            return Err(Refusal::BlockNotBelowLetter);
        }
        if self.letters.len() >= 512 {
            return Err(Refusal::LettersFull);
        }
        self.letters.push_reserved(letter);
        Ok(self.letters.len() as u32)
    }
}
