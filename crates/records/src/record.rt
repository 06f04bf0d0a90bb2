// What a record says, and how it is read from its bytes.
ghost use Rattle.std.specs.Prelude.{◌≡◌, ◌+◌, ◌≤◌, ◌<◌, ℕ, slice_index, ok_or};
ghost use Rattle.refusal.specs.declared.Refusal.TheVariants.{RecordKindUnknown};
ghost use Rattle.records.specs.Decoding.{seat_field, view_field, block_field, payload_field, set_field, spare_clear, kind_of, proposal_of, record_of, decoded};

use book::block::Proposal;
use letters::letter::Letter;
use protocol::call::Call;
use quorum::seats::SeatSet;
use refusal::Refusal;

// The kinds of records, each known by its letter.
#[derive(Clone, Copy)]
pub enum Kind {
    Open,
    Fast,
    Slow,
    Show,
    Expire,
    Vote,
    Letter,
}

// An opening with the count rule for so many faulty seats, or a call.
#[derive(Clone, Copy)]
pub enum Record {
    Open { faults: u8, open_set: SeatSet },
    Call(Call),
}

impl TryFrom<u8> for Kind {
    type Error = Refusal;

    ghost try_from_gives = { λ letter r. r ≡ ok_or (kind_of letter) RecordKindUnknown };

    fn try_from(letter: u8) -> Result<Kind, Refusal> {
        match letter {
            b'O' => Ok(Kind::Open),
            b'F' => Ok(Kind::Fast),
            b'S' => Ok(Kind::Slow),
            b'H' => Ok(Kind::Show),
            b'E' => Ok(Kind::Expire),
            b'V' => Ok(Kind::Vote),
            b'L' => Ok(Kind::Letter),
            _ => Err(Refusal::RecordKindUnknown),
        }
    }
}

// The N bytes of a record from a place on.
fn field<const N: usize>(bytes: &[u8; 32], at: usize) -> [u8; N]
    requires { at + N ≤ 32 }
    ensures { (k : ℕ) → k < N → slice_index result k ≡ slice_index bytes.now (at + k) }
{
    *bytes[at..].first_chunk().unwrap()
}

fn view(bytes: &[u8; 32]) -> u32
    ensures { result ≡ view_field bytes.now 0 }
{
    u32::from_le_bytes(field(bytes, 4))
}

fn block(bytes: &[u8; 32]) -> u32
    ensures { result ≡ block_field bytes.now 0 }
{
    u32::from_le_bytes(field(bytes, 8))
}

fn payload(bytes: &[u8; 32]) -> u64
    ensures { result ≡ payload_field bytes.now 0 }
{
    u64::from_le_bytes(field(bytes, 16))
}

fn set(bytes: &[u8; 32]) -> SeatSet
    ensures { result ≡ set_field bytes.now 0 }
{
    SeatSet {
        bits: u64::from_le_bytes(field(bytes, 24)),
    }
}

// Whether the spare bytes are 0.
fn is_spare_clear(bytes: &[u8; 32]) -> bool
    ensures { result ≡ spare_clear bytes.now 0 }
{
    [
        bytes[2], bytes[3], bytes[12], bytes[13], bytes[14], bytes[15],
    ] == [0; 6]
}

fn proposal(bytes: &[u8; 32]) -> Proposal
    ensures { result ≡ proposal_of bytes.now 0 }
{
    Proposal {
        view: view(bytes),
        parent: block(bytes),
        payload: payload(bytes),
        heard: set(bytes),
    }
}

impl Kind {
    // The record of this kind.
    fn record(self, bytes: &[u8; 32]) -> Record
        ensures { result ≡ record_of self bytes.now 0 }
    {
        let seat = bytes[1];
        let view = view(bytes);
        let block = block(bytes);
        match self {
            Kind::Open => Record::Open {
                faults: seat,
                open_set: set(bytes),
            },
            Kind::Fast => Record::Call(Call::Fast(proposal(bytes))),
            Kind::Slow => Record::Call(Call::Slow(proposal(bytes))),
            Kind::Show => Record::Call(Call::Show { seat, block }),
            Kind::Expire => Record::Call(Call::Expire { seat, view }),
            Kind::Vote => Record::Call(Call::Vote { seat, block }),
            Kind::Letter => Record::Call(Call::Letter(Letter { seat, view, block })),
        }
    }
}

impl TryFrom<&[u8; 32]> for Record {
    type Error = Refusal;

    ghost try_from_gives = { λ bytes r. r ≡ decoded bytes.now 0 };

    fn try_from(bytes: &[u8; 32]) -> Result<Record, Refusal> {
        let kind = Kind::try_from(bytes[0])?;
        if !is_spare_clear(bytes) {
            return Err(Refusal::SpareByteNotZero);
        }
        Ok(kind.record(bytes))
    }
}
