// Every reason for which a call is turned away, and its number.

ghost use Rattle.terms.specs.Refusing.{number_of};
ghost use Rattle.std.specs.Prelude.{◌≡◌};

/// Why a call was turned away.
#[derive(Clone, Copy, PartialEq, Eq, Debug)]
pub enum Refusal {
    /// The member is none of 1 to 64.
    Member = 1,
    /// The segment is none of 1 to 5.
    Segment = 2,
    /// The day is none of 1 to 1,000,000.
    Day = 3,
    /// The scenario count is none of 1 to 64.
    Scenarios = 4,
    /// The sheet has no whole number of assets from 1 to 64, or a change is out of range.
    Sheet = 5,
    /// Too many positions, an unknown asset, or a quantity that is 0 or out of range.
    Positions = 6,
    /// A margin is above its limit.
    Margin = 7,
    /// A column would pass its limit.
    Column = 8,
    /// The tables are no book.
    NoBook = 10,
    /// The seat is taken.
    SeatTaken = 11,
    /// The class is unknown, or unlike that of the member's other seats.
    WrongClass = 12,
    /// The minimum is not as a book has it.
    Minimum = 13,
    /// The amount is out of range.
    Amount = 14,
    /// A ceiling of the book would be passed.
    Ceiling = 15,
    /// There is no such seat.
    NoSeat = 16,
    /// The day is not after the last one booked.
    PastDay = 17,
    /// The mean has all the days that it can have.
    DaysFull = 18,
    /// The class is exempt from this.
    Exempt = 19,
    /// A seat holds less than is asked of it.
    Short = 20,
    /// A sharing seat has no figure in its mean.
    NoFigure = 21,
    /// No member shares in the segment.
    NoneShares = 22,
    /// The size of the fund is above its limit.
    FundSize = 23,
    /// Less than is asked, or than was pledged, would stay.
    TooLittleLeft = 24,
    /// A loss of more than the segment holds, or too few contrary contracts.
    TooMuch = 25,
    /// Equity is short by more than a tenth of what is required.
    EquityShort = 26,
    /// A list that the caller brought has the wrong length.
    Lengths = 27,
    /// A line has another key than the one expected, or does not end.
    Key = 31,
    /// A bad number, kind or form, or a wrong number of fields.
    Field = 32,
    /// A line of changes that are not one to a scenario, or an end that counts wrongly.
    Count = 33,
    /// The file is too long, or goes on after its end.
    TooLong = 34,
}

impl Refusal {
    /// The number that reports print.
    pub fn number(self) -> u8
        ensures { result ≡ number_of self }
    {
        self as u8
    }
}
