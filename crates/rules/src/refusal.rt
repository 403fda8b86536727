ghost use Rattle.std.specs.Prelude.{◌≡◌};
ghost use Rattle.rules.specs.Refused.{number_of};

// Why a call or a step is refused: the table of numbers.
#[derive(Clone, Copy, Debug, PartialEq, Eq)]
pub enum Refusal {
    // P, K or B out of range.
    SizesOutOfRange = 1,
    // A store that is not laid out as its sizes say.
    NotLaidOut = 2,
    NotSound = 3,
    // A slice of steps that is no whole number of steps.
    StepCut = 4,
    // A slice of answers that is not two words a step.
    AnswersLength = 5,
    // A step of unknown kind, or with a word that its kind does not name.
    OutOfForm = 6,
    NoTrain = 7,
    // A box or window that is not proper.
    NotProper = 8,
    NoSuchBoard = 9,
    // A board to open is open, or one to close or to read is closed.
    OpenOrClosed = 10,
    NoStampLeft = 11,
    TooManyEntries = 12,
    NoSlotLeft = 13,
    TooManyRows = 14,
    // A row slice too short for the rows.
    RowsTooShort = 15,
}

impl From<Refusal> for u32 {
    ghost from_gives = { λ refusal number. number ≡ number_of refusal };

    fn from(refusal: Refusal) -> u32 {
        refusal as u32
    }
}
