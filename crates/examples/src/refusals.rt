// The numbers by which refusals are known outside the program.
use refusal::Refusal;

#[test]
fn numbers_of_refusals(rt: HostRuntime) {
    for &(refusal, number) in &[
        (Refusal::SeatCountsDiffer, 1),
        (Refusal::UnknownSeatInSet, 2),
        (Refusal::NoSuchSeat, 3),
        (Refusal::NoSuchBlock, 4),
        (Refusal::ViewOutOfRange, 5),
        (Refusal::SeatIsKept, 6),
        (Refusal::SeatIsOpen, 7),
        (Refusal::ViewNotAboveSeat, 8),
        (Refusal::BlockNotBelowLetter, 9),
        (Refusal::LettersFull, 10),
        (Refusal::BlocksFull, 11),
        (Refusal::LeaderHasProposed, 12),
        (Refusal::HeardNoQuorum, 13),
        (Refusal::HeardSeatSilent, 14),
        (Refusal::ParentUnfit, 15),
        (Refusal::CommitConflict, 16),
        (Refusal::FaultsOutOfRange, 17),
        (Refusal::WeightsOutOfRange, 18),
        (Refusal::RotationOutOfRange, 19),
        (Refusal::RecordCutShort, 20),
        (Refusal::RecordKindUnknown, 21),
        (Refusal::SpareByteNotZero, 22),
        (Refusal::RecordOutOfPlace, 23),
        (Refusal::NoMemory, 255),
    ] {
        assert_eq!(rt; refusal.number(), number);
    }
}
