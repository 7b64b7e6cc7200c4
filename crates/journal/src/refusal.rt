// Why a call of the journal is refused, and what is wrong with a frame. Only the conversions here, and the definitions that they cite, know the numbers.
ghost use Rattle.std.specs.Prelude.{◌≡◌};
ghost use Rattle.journal.specs.Refusals.{fault_number, refusal_number};

// What is wrong with a frame, or what follows the last one that may come.
#[derive(Clone, Copy, Debug, PartialEq, Eq)]
pub enum Fault {
    CutShort,
    Length,
    Version,
    OpNumber,
    Entry,
    Outcome,
    Total,
    PastLast,
}

// Why a call is refused. A bad frame is told by the offset of its first byte.
#[derive(Clone, Copy, Debug, PartialEq, Eq)]
pub enum JournalRefusal {
    OutOfRange,
    BadEntry,
    TooMany,
    NoRoom,
    BadFrame { offset: usize, fault: Fault },
}

impl From<Fault> for u8 {
    ghost from_gives = { λ fault number. number ≡ fault_number fault };

    fn from(fault: Fault) -> u8 {
        match fault {
            Fault::CutShort => 1,
            Fault::Length => 2,
            Fault::Version => 3,
            Fault::OpNumber => 4,
            Fault::Entry => 5,
            Fault::Outcome => 6,
            Fault::Total => 7,
            Fault::PastLast => 8,
        }
    }
}

impl From<JournalRefusal> for u8 {
    ghost from_gives = { λ refusal number. number ≡ refusal_number refusal };

    fn from(refusal: JournalRefusal) -> u8 {
        match refusal {
            JournalRefusal::OutOfRange => 1,
            JournalRefusal::BadEntry => 2,
            JournalRefusal::TooMany => 4,
            JournalRefusal::NoRoom => 9,
            JournalRefusal::BadFrame { .. } => 12,
        }
    }
}
