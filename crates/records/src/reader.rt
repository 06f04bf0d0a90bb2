// The reader.
ghost use Rattle.std.specs.Prelude.{◌≡◌, ◌+◌, ◌-◌, ◌/◌, length};
ghost use Rattle.std.specs.Iterator.{at_most};
ghost use Rattle.records.specs.Decoding.{yielded, beyond};

use crate::record::Record;
use refusal::Refusal;

// The input, and the place that it was read up to: what is read next is promised by both.
#[derive(Drop)]
pub struct Reader<'a> {
    bytes: &'a [u8],
    at: usize,
}

impl<'a> Reader<'a> {
    // A reader at the start of its input.
    pub fn new(bytes: &'a [u8]) -> Reader<'a>
        ensures input { result.bytes.now ≡ bytes.now }
        ensures start { result.at ≡ 0 }
    {
        Reader { bytes, at: 0 }
    }
}

// The records one after another, each or why there is none.
impl<'a> Iterator for Reader<'a> {
    type Item = Result<Record, Refusal>;

    ghost next_gives = { λ s r t. (r ≡ yielded s.bytes.now s.at) × (t.at ≡ beyond s.bytes.now s.at) × (t.bytes.now ≡ s.bytes.now) };

    ghost remaining = { λ s. at_most ((length s.bytes.now - s.at + 31) / 32) };

    fn next(&mut self) -> Option<Result<Record, Refusal>> {
        let at = self.at;
        if at >= self.bytes.len() {
            return None;
        }
        self.at = self.bytes.len().min(at + 32);
        let bytes = self.bytes[at..]
            .first_chunk()
            .ok_or(Refusal::RecordCutShort);
        Some(bytes.and_then(Record::try_from))
    }
}
