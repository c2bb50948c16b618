// A refusal by name, with document 01's number, or 02's from 29 on ([6], [11]); and beside it the place that the same document gives it.
ghost use Rattle.std.specs.Prelude.{◌≡◌};
ghost use Rattle.form.specs.Refusals.{number_of};

// Why a call gives no answer.
#[derive(Clone, Copy, Debug, PartialEq, Eq)]
pub enum Refusal {
    DataEnds = 1,
    RootId = 2,
    TagId = 3,
    BadString = 4,
    NegativeCount = 5,
    NameTwice = 6,
    TooDeep = 7,
    TableFull = 8,
    OverLimit = 9,
    NoTable = 10,
    MixedList = 11,
    LongString = 12,
    OutputFull = 13,
    BadQuery = 14,
    BadText = 15,
    QuoteOpen = 16,
    UnknownEscape = 17,
    BadNumber = 18,
    UnexpectedToken = 19,
    TextEnds = 20,
    TrailingComma = 21,
    UnmatchedBrace = 22,
    DecimalBeyond = 23,
    MoreMatches = 24,
    BadLine = 29,
    NotCut = 31,
    RootCut = 32,
}

impl Refusal {
    // The number that the documents give it, as callers in C are answered.
    pub fn number(self) -> u8
        ensures { result ≡ number_of self }
    {
        self as u8
    }
}

// A refusal and its place.
#[derive(Clone, Copy, Debug, PartialEq, Eq)]
pub struct Refused {
    pub refusal: Refusal,
    pub place: usize,
}
