// The refusals of document 01, in the order of its table.
#![tactic(auto)]

ghost use Rattle.std.specs.Prelude.{◌≡◌};
ghost use Rattle.refusals.specs.Number.{refusal_number};

#[derive(Clone, Copy)]
pub enum Refusal {
    Stranger,
    BadAppId,
    ForeignAppId,
    BadRecord,
    OpenRedirect,
    BadLocation,
    NotFetched,
    WrongType,
    LongList,
    Unreadable,
    Misshapen,
    NoVersion,
    BadTable,
    NotListed,
    Full,
    BadHead,
}

// The number of a refusal in that table.
impl From<Refusal> for u16 {
    ghost from_gives = { λ r n. n ≡ refusal_number r };

    fn from(r: Refusal) -> u16 {
        match r {
            Refusal::Stranger => 1,
            Refusal::BadAppId => 2,
            Refusal::ForeignAppId => 3,
            Refusal::BadRecord => 4,
            Refusal::OpenRedirect => 5,
            Refusal::BadLocation => 6,
            Refusal::NotFetched => 7,
            Refusal::WrongType => 8,
            Refusal::LongList => 9,
            Refusal::Unreadable => 10,
            Refusal::Misshapen => 11,
            Refusal::NoVersion => 12,
            Refusal::BadTable => 13,
            Refusal::NotListed => 14,
            Refusal::Full => 15,
            Refusal::BadHead => 16,
        }
    }
}
