// Why a client's call is refused.
ghost use Rattle.std.specs.Prelude.{◌≡◌};
ghost use Rattle.client.specs.Refusals.{client_refusal_number};

// The causes of document 01.
#[derive(Clone, Copy, Debug, PartialEq, Eq)]
pub enum ClientRefusal {
    OutOfRange, // n is not 3 to 7
    BadEntry, // operation or cents break the entry rules
    NoNumber, // the next request number is 2^64-1, which is never given
    NoRoom, // the frames don't fit the area
}

// The document's number.
impl From<ClientRefusal> for u8 {
    ghost from_gives = { λ cause k. k ≡ client_refusal_number cause };

    fn from(cause: ClientRefusal) -> u8 {
        match cause {
            ClientRefusal::OutOfRange => 1,
            ClientRefusal::BadEntry => 2,
            ClientRefusal::NoNumber => 11,
            ClientRefusal::NoRoom => 9,
        }
    }
}
