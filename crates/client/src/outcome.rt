// What a Reply says that the fee rules gave, and its number in the frame.
ghost use Rattle.std.specs.Prelude.{◌≡◌};
ghost use Rattle.client.specs.Outcomes.{outcome_number, outcome_of};

// Document 01's outcomes 1 to 6.
#[derive(Clone, Copy, Debug, PartialEq, Eq)]
pub enum ReplyOutcome {
    Fee,
    Refund,
    Ask,
    NoMember,
    PastLimit,
    PastTotal,
}

// A number that no outcome has.
#[derive(Clone, Copy, Debug, PartialEq, Eq)]
pub struct NoOutcome(pub u8);

impl From<ReplyOutcome> for u8 {
    ghost from_gives = { λ outcome k. k ≡ outcome_number outcome };

    fn from(outcome: ReplyOutcome) -> u8 {
        match outcome {
            ReplyOutcome::Fee => 1,
            ReplyOutcome::Refund => 2,
            ReplyOutcome::Ask => 3,
            ReplyOutcome::NoMember => 4,
            ReplyOutcome::PastLimit => 5,
            ReplyOutcome::PastTotal => 6,
        }
    }
}

impl TryFrom<u8> for ReplyOutcome {
    type Error = NoOutcome;

    ghost try_from_gives = { λ k r. r ≡ outcome_of k };

    fn try_from(number: u8) -> Result<ReplyOutcome, NoOutcome> {
        match number {
            1 => Ok(ReplyOutcome::Fee),
            2 => Ok(ReplyOutcome::Refund),
            3 => Ok(ReplyOutcome::Ask),
            4 => Ok(ReplyOutcome::NoMember),
            5 => Ok(ReplyOutcome::PastLimit),
            6 => Ok(ReplyOutcome::PastTotal),
            _ => Err(NoOutcome(number)),
        }
    }
}
