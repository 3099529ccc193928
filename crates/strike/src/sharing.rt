// The seats that share in a segment.

ghost use Rattle.std.specs.Prelude.{◌≡◌, ℕ, ◌<◌, ◌≤◌, true, false, length, Decides, MatchBool, slice_index};
ghost use Rattle.strike.specs.Members.{means_of, minimums_of};
ghost use Rattle.strike.specs.Strike.{EachSharing, Figured, Paid, members_in};
ghost use Rattle.tables.specs.Book.{IsMember, seat_at};
ghost use Rattle.terms.specs.Limits.{figure_limit, minimum_limit};

use arrayvec::ArrayVec;
use tables::{Seat, Tables};
use terms::limits::ALL_MEMBERS;
use terms::{Member, Segment};

// The means and the minimums of the members that share, by place. Two lists and no list of both: a rule is told the means alone.
#[derive(Drop)]
pub(crate) struct Gathered {
    pub(crate) means: ArrayVec<u64, ALL_MEMBERS>,
    pub(crate) minimums: ArrayVec<u64, ALL_MEMBERS>,
}

// A segment of a book, as it is read.
#[derive(Clone, Copy)]
pub(crate) struct StruckSegment<'a> {
    pub(crate) tables: Tables<'a>,
    pub(crate) segment: Segment,
}

impl StruckSegment<'_> {
    pub(crate) fn gather(&self) -> Gathered
        ensures means { result.means.items ≡ means_of (members_in self.now.tables.seats.all.now self.now.segment.number) }
        ensures minimums { result.minimums.items ≡ minimums_of (members_in self.now.tables.seats.all.now self.now.segment.number) }
        ensures small { (k : ℕ) → k < length result.means.items → slice_index result.means.items k ≤ figure_limit }
        ensures least { (k : ℕ) → k < length result.minimums.items → slice_index result.minimums.items k ≤ minimum_limit }
    {
        let mut means = ArrayVec::new();
        let mut minimums = ArrayVec::new();
        for member in Member::all() {
            let seat = self.tables.seat(member, self.segment);
            if seat.shares() {
                means.push(seat.mean());
                minimums.push(seat.minimum);
            }
        }
        Gathered { means, minimums }
    }

    // Whether every seat that shares passes the test. By a loop: `all` over members leaves what it answers unproved.
    fn each_sharing<F: Fn(Seat) -> bool>(&self, test: F) -> bool
        requires { F.IsAlwaysCallable test }
        ensures { MatchBool result (EachSharing self.now.tables.seats.all.now self.now.segment.number (λ x. F.post test x true)) ((m : ℕ) × (IsMember m) × ((members_in self.now.tables.seats.all.now self.now.segment.number).shares m ≡ true) × (F.post test (seat_at self.now.tables.seats.all.now m self.now.segment.number) false)) }
    {
        for member in Member::all() {
            let seat = self.tables.seat(member, self.segment);
            if seat.shares() && !test(seat) {
                return false;
            }
        }
        true
    }

    // Whether every seat that shares holds what is asked of it.
    pub(crate) fn all_paid(&self) -> bool
        ensures { Decides result (EachSharing self.now.tables.seats.all.now self.now.segment.number Paid) }
    {
        self.each_sharing(|seat| seat.held >= seat.asked)
    }

    // Whether every seat that shares has a figure in its mean.
    pub(crate) fn all_figured(&self) -> bool
        ensures { Decides result (EachSharing self.now.tables.seats.all.now self.now.segment.number Figured) }
    {
        self.each_sharing(|seat| seat.days > 0)
    }
}
