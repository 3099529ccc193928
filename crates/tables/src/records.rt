// The records of the two tables. Their owner brings both as slices to every call, which reads and changes them in place; so calls
// take the two, and a member and a segment as numbers, and make a view of them (`Tables`) only inside.

ghost use Rattle.std.specs.Prelude.{◌≡◌, ◌≤◌, Decides};
ghost use Rattle.tables.specs.Book.{shares};
ghost use Rattle.tables.specs.Writing.{mean_of};
ghost use Rattle.terms.specs.Classes.{owes};

use terms::rounding::divided_up;
use terms::{Class, Duty};

/// One member's place in one segment; all zeros when empty. The seat of member m in segment s stands at place
/// 5 x (m - 1) + (s - 1).
#[derive(Clone, Copy, PartialEq, Eq, Debug, Default)]
pub struct Seat {
    /// 1 general, 2 individual, 3 treasury, 4 central bank; 0 when empty. A number and no `Class`, since a table that its owner
    /// brings may hold any number, and the test of a book has to refuse it.
    pub class: u64,
    pub minimum: u64,
    pub held: u64,
    pub asked: u64,
    /// The sum of the figures booked since admission or the last strike.
    pub sum: u64,
    /// Their number.
    pub days: u64,
    pub last_day: u64,
    pub last_figure: u64,
}

/// What a member has pledged; the record of member m stands at place m - 1.
#[derive(Clone, Copy, PartialEq, Eq, Debug, Default)]
pub struct Pledges {
    pub individual: u64,
    pub extraordinary: u64,
}

impl Seat {
    /// Whether a member has this seat.
    pub fn is_taken(&self) -> bool
        ensures { Decides result (1 ≤ self.now.class) }
    {
        self.class != 0
    }

    /// Whether a member of the seat's class owes the duty.
    pub fn owes(&self, duty: Duty) -> bool
        ensures { result ≡ owes self.now.class duty }
    {
        Class::number_owes(self.class, duty)
    }

    /// Whether the seat shares in the fund: its class owes a contribution.
    pub fn shares(&self) -> bool
        ensures { result ≡ shares self.now.class }
    {
        self.owes(Duty::FundContribution)
    }

    /// The mean of the figures booked since admission or the last strike, rounded up; 0 without figures.
    pub fn mean(&self) -> u64
        ensures { result ≡ mean_of self.now }
    {
        divided_up(self.sum, self.days)
    }
}
