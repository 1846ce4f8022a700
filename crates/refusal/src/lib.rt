// What is refused, by name: the lines of the table of refusals. C has them by their numbers, 1 to 23, and so have the
// rules of specs/.
#![tactic(auto)]

ghost use Rattle.std.specs.Prelude.{◌≡◌};
ghost use Rattle.refusal.specs.Refusal.{number};

// In the order of their numbers.
#[derive(Clone, Copy, Debug, PartialEq, Eq)]
pub enum Refusal {
    BookLength = 1,
    BookLetters,
    BookIndex,
    BookRecords,
    RecordNumber,
    LoneRecord,
    Concrete,
    Sizes,
    BarStrength,
    Fibres,
    Load,
    Bars,
    Stirrups,
    NoDepth,
    RowLength,
    NoBars,
    Class,
    OffRange,
    Room,
    Flange,
    ResultCount,
    ResultRange,
    BelowZero,
}

impl From<Refusal> for u32 {
    ghost from_gives = { λ r n. n ≡ number r };

    fn from(refusal: Refusal) -> u32 {
        refusal as u32
    }
}
