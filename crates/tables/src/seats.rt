// The table of seats, in number as a book has them, whatever stands in them.

ghost use Rattle.std.specs.Prelude.{◌≡◌, ◌+◌, ◌<◌, ◌≤◌, ℕ, true, false, length, Decides, MatchBool, MatchOption, ◌≢◌};
ghost use Rattle.tables.specs.Book.{Alike, IsSegment, held_in, place, seat_at};
ghost use Rattle.terms.specs.Limits.{all_seats, held_limit};

use crate::records::Seat;
use terms::limits::{ALL_SEATS, HELD_LIMIT, LAST_SEGMENT};
use terms::{Member, Segment};

/// Where the member's seat in the segment stands.
// Member and segment come apart: what is asked of one alone, a member's class or a segment's ceiling, takes the one.
pub fn place_of(member: Member, segment: Segment) -> usize
    ensures is { result ≡ place member.number segment.number }
    ensures within { result < all_seats }
{
    LAST_SEGMENT as usize * member.index() + segment.index()
}

/// As many seats as a book has, whatever stands in them.
#[derive(Clone, Copy)]
pub struct Seats<'a> {
    all: &'a [Seat],
    ghost long: { length all.now ≡ all_seats },
}

impl<'a> Seats<'a> {
    /// The seats of a table, where they are 320.
    pub fn of(all: &'a [Seat]) -> Option<Self>
        ensures { MatchOption result (length all.now ≢ all_seats) (λ s. s.all.now ≡ all.now) }
    {
        if all.len() != ALL_SEATS {
            return None;
        }
        Some(Seats { all })
    }

    /// The member's seat in the segment.
    pub fn seat(&self, member: Member, segment: Segment) -> Seat
        ensures { result ≡ seat_at self.now.all.now member.number segment.number }
    {
        self.all[place_of(member, segment)]
    }

    // Whether each seat that the member has passes the test. By a loop: `all` over segments leaves what it answers unproved.
    pub(crate) fn each_taken<F: Fn(Seat) -> bool>(&self, member: Member, test: F) -> bool
        requires { F.IsAlwaysCallable test }
        ensures { MatchBool result ((s : ℕ) → IsSegment s → 1 ≤ (seat_at self.now.all.now member.number s).class → F.post test (seat_at self.now.all.now member.number s) true) ((s : ℕ) × (IsSegment s) × (1 ≤ (seat_at self.now.all.now member.number s).class) × (F.post test (seat_at self.now.all.now member.number s) false)) }
    {
        for segment in Segment::all() {
            let seat = self.seat(member, segment);
            if seat.is_taken() && !test(seat) {
                return false;
            }
        }
        true
    }

    /// Whether each seat that the member has is of this class.
    pub fn is_alike(&self, member: Member, class: u64) -> bool
        ensures { Decides result (Alike self.now.all.now member.number class) }
    {
        self.each_taken(member, |seat| seat.class == class)
    }

    /// What the segment holds, where that is within its ceiling. Each seat is held against what is left of the ceiling before it is
    /// added, since a table may hold any number.
    pub fn held_in(&self, segment: Segment) -> Option<u64>
        ensures { MatchOption result (held_limit < held_in self.now.all.now segment.number) (λ held. (held ≡ held_in self.now.all.now segment.number) × (held ≤ held_limit)) }
    {
        let mut sum = 0;
        for member in Member::all() {
            let held = self.seat(member, segment).held;
            if held > HELD_LIMIT - sum {
                return None;
            }
            sum += held;
        }
        Some(sum)
    }

    /// Whether the segment can hold so much more.
    pub fn has_room(&self, segment: Segment, more: u64) -> bool
        ensures { Decides result (held_in self.now.all.now segment.number + more ≤ held_limit) }
    {
        more <= HELD_LIMIT
            && self
                .held_in(segment)
                .is_some_and(|held| more <= HELD_LIMIT - held)
    }
}
