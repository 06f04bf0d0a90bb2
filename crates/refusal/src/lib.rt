// Why a call is told no: one enum for the whole project, each reason with its number and its sentence.
#![tactic(auto)]

ghost use Rattle.std.specs.Prelude.{◌≡◌, Some};
ghost use Rattle.refusal.specs.declared.Refusal.TheVariants.{NoMemory};
ghost use Rattle.refusal.specs.Numbers.{number_of};
ghost use Rattle.refusal.specs.Sentences.{sentence_of};

use std::alloc::AllocError;
use std::fmt;

// A reason to say no. A refused call changes nothing; where several reasons apply, the one with the smallest number is
// given.
#[derive(Clone, Copy, Debug, PartialEq, Eq)]
pub enum Refusal {
    SeatCountsDiffer = 1,
    UnknownSeatInSet = 2,
    NoSuchSeat = 3,
    NoSuchBlock = 4,
    ViewOutOfRange = 5,
    SeatIsKept = 6,
    SeatIsOpen = 7,
    ViewNotAboveSeat = 8,
    BlockNotBelowLetter = 9,
    LettersFull = 10,
    BlocksFull = 11,
    LeaderHasProposed = 12,
    HeardNoQuorum = 13,
    HeardSeatSilent = 14,
    ParentUnfit = 15,
    CommitConflict = 16,
    FaultsOutOfRange = 17,
    WeightsOutOfRange = 18,
    RotationOutOfRange = 19,
    RecordCutShort = 20,
    RecordKindUnknown = 21,
    SpareByteNotZero = 22,
    RecordOutOfPlace = 23,
    // want of memory, found only after every other reason: no number of the rules, so the largest that fits
    NoMemory = 255,
}

impl Refusal {
    // The number by which a refusal is known outside the program.
    pub fn number(self) -> u8
        ensures { result ≡ number_of self }
    {
        self as u8
    }

    // The reason in words, for a person.
    pub fn sentence(self) -> &'static str
        ensures { result.now ≡ sentence_of self }
    {
        match self {
            Refusal::SeatCountsDiffer =>
                "the rule and the rotation have different numbers of seats",
            Refusal::UnknownSeatInSet => "the set has a seat that the cluster lacks",
            Refusal::NoSuchSeat => "there is no such seat",
            Refusal::NoSuchBlock => "there is no such block",
            Refusal::ViewOutOfRange => "the view is not from 1 to 1000000",
            Refusal::SeatIsKept =>
                "the seat is kept: it votes and writes letters only by the rules",
            Refusal::SeatIsOpen => "the seat is open: it is neither shown blocks nor expired",
            Refusal::ViewNotAboveSeat => "the view is not above the seat's own",
            Refusal::BlockNotBelowLetter =>
                "the block that the letter names is not of an earlier view",
            Refusal::LettersFull => "the book already holds 512 letters",
            Refusal::BlocksFull => "the book already holds 256 blocks",
            Refusal::LeaderHasProposed => "the view's leader is kept and has a block of that view",
            Refusal::HeardNoQuorum => "the heard seats are no quorum",
            Refusal::HeardSeatSilent =>
                "a heard seat has no vote for the parent, or no letter for the view",
            Refusal::ParentUnfit => "the parent is not the one that the heard seats allow",
            Refusal::CommitConflict => "the block's commit point and the seat's tip conflict",
            Refusal::FaultsOutOfRange => "the count rule tolerates at most 21 faults",
            Refusal::WeightsOutOfRange =>
                "the weight rule takes 1 to 32 weights of at most 65535 with a total above 0",
            Refusal::RotationOutOfRange =>
                "a rotation takes 1 to 64 seats, lists of 1 to 256 entries, and only its own seats",
            Refusal::RecordCutShort => "the record has fewer than 32 bytes",
            Refusal::RecordKindUnknown => "the record's letter is unknown",
            Refusal::SpareByteNotZero => "a spare byte of the record is not 0",
            Refusal::RecordOutOfPlace =>
                "the record is out of place: one opening, first, and nothing before it",
            Refusal::NoMemory => "there is not enough memory",
        }
    }
}

impl From<AllocError> for Refusal {
    ghost from_gives = { λ _ r. r ≡ NoMemory };

    fn from(_e: AllocError) -> Self {
        Self::NoMemory
    }
}

impl fmt::Display for Refusal {
    ghost output = { λ x. Some (sentence_of x) };

    fn fmt<W: fmt::Write>(&self, f: &mut fmt::Formatter<W>) -> fmt::Result {
        f.write_str(self.sentence())
    }
}
