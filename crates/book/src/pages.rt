// The book.
ghost use Rattle.std.specs.Prelude.{◌≤◌, vec_len, vec_capacity};
ghost use Rattle.book.specs.Known.{Known};

use crate::block::Block;
use letters::letter::Letter;

// At most 256 blocks and 512 letters, in order of arrival. Room for them all is reserved from the start. Blocks name
// each other by number, as records and answers name them.
#[derive(Drop)]
pub struct Book {
    pub(crate) blocks: Vec<Block>,
    pub(crate) letters: Vec<Letter>,
    ghost blocks_room: { 256 ≤ vec_capacity blocks },
    ghost letters_room: { 512 ≤ vec_capacity letters },
    ghost blocks_fit: { vec_len blocks ≤ 256 },
    ghost letters_fit: { vec_len letters ≤ 512 },
    ghost known: { Known blocks.items letters.items },
}
