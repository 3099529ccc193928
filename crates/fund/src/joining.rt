// What a member brings to its admission.

ghost use Rattle.fund.specs.Calls.{MinimumFits, PaidFits, admitted};
ghost use Rattle.std.specs.Prelude.{◌≡◌, Decides};
ghost use Rattle.tables.specs.Book.{shares};

use tables::Seat;
use terms::limits::{AMOUNT_LIMIT, MINIMUM_LIMIT};
use terms::{Class, Duty};

// The class in which a member joins, its minimum, and what it pays.
#[derive(Clone, Copy)]
pub(crate) struct Joining {
    pub(crate) class: u64,
    pub(crate) minimum: u64,
    pub(crate) paid: u64,
}

impl Joining {
    fn shares(&self) -> bool
        ensures { result ≡ shares self.now.class }
    {
        Class::number_owes(self.class, Duty::FundContribution)
    }

    pub(crate) fn minimum_fits(&self) -> bool
        ensures { Decides result (MinimumFits self.now.class self.now.minimum) }
    {
        if self.shares() {
            1 <= self.minimum && self.minimum <= MINIMUM_LIMIT
        } else {
            self.minimum == 0
        }
    }

    pub(crate) fn paid_fits(&self) -> bool
        ensures { Decides result (PaidFits self.now.class self.now.minimum self.now.paid) }
    {
        if self.shares() {
            self.minimum <= self.paid && self.paid <= AMOUNT_LIMIT
        } else {
            self.paid == 0
        }
    }

    // The seat that it then has.
    pub(crate) fn seat(&self) -> Seat
        ensures { result ≡ admitted self.now.class self.now.minimum self.now.paid }
    {
        Seat {
            class: self.class,
            minimum: self.minimum,
            held: self.paid,
            asked: self.minimum,
            ..Seat::default()
        }
    }
}
