//! The questions, in the order in which they are asked.

ghost use Rattle.std.specs.Prelude.{◌≡◌};
ghost use Rattle.questions.specs.Numbers.{number_of};

/// A question, by what has to hold. The number of each case is the one that a refusal shows.
#[derive(Clone, Copy, PartialEq, Eq)]
pub enum Question {
    /// There are at least 4 bytes, and 4 + 3N in all.
    Bytes = 1,
    /// N lies between 1 and 255, R between 1 and 8.
    Sizes = 2,
    /// The scope lies between 1 and 5.
    Scope = 3,
    /// The kind is known.
    Kind = 4,
    /// The argument is one that the kind has.
    Argument = 5,
    /// The item stands where it may, and finds what it takes.
    Takes = 6,
    /// The two picks may be shared.
    Sharing = 7,
    /// The count is within its limit.
    Count = 8,
    /// The length is within its limit.
    Length = 9,
    /// All roots are closed, and nothing waits.
    Whole = 10,
    /// The total is within its limit.
    Total = 11,
    /// The root lengths together are within their limit.
    Events = 12,
}

impl Question {
    /// The number of the question.
    pub fn number(self) -> u8
        ensures { result ≡ number_of self }
    {
        self as u8
    }
}
