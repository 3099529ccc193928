// Two tables that form a book, as they are read.

ghost use Rattle.std.specs.Prelude.{◌≡◌, ℕ, ◌+◌, ◌-◌, ◌<◌, ◌≤◌, length, Decides, MatchResult, slice_index_or};
ghost use Rattle.tables.specs.Book.{Alike, Book, IsSegment, Ranged, held_in, no_pledges, no_seat, seat_at};
ghost use Rattle.terms.specs.Limits.{all_pledges, all_seats, held_limit, minimum_limit};
ghost use Rattle.terms.specs.declared.refusals.Refusal.TheVariants as refusals;

use crate::book::is_book;
use crate::records::{Pledges, Seat};
use crate::seats::Seats;
use terms::{Member, Refusal, Segment};

/// Two tables that form a book, as they are read. Whoever has them so has no need to test them again.
#[derive(Clone, Copy)]
pub struct Tables<'a> {
    seats: Seats<'a>,
    pledges: &'a [Pledges],
    ghost long: { length pledges.now ≡ all_pledges },
    ghost ranged: { (k : ℕ) → k < all_seats → Ranged (slice_index_or seats.all.now k no_seat) },
    ghost minimums: { (k : ℕ) → k < all_seats → (slice_index_or seats.all.now k no_seat).minimum ≤ minimum_limit },
    ghost ceiling: { (s : ℕ) → IsSegment s → held_in seats.all.now s ≤ held_limit },
}

impl<'a> Tables<'a> {
    /// Reads two tables as a book. Refuses tables that are none.
    pub fn read(seats: &'a [Seat], pledges: &'a [Pledges]) -> Result<Tables<'a>, Refusal>
        ensures { MatchResult result (λ t. (t.seats.all.now ≡ seats.now) × (t.pledges.now ≡ pledges.now) × Book seats.now pledges.now) (λ e. (e ≡ refusals.NoBook) × (Book seats.now pledges.now → ⊥)) }
    {
        let table = Seats::of(seats).ok_or(Refusal::NoBook)?;
        if !is_book(seats, pledges) {
            return Err(Refusal::NoBook);
        }
        Ok(Tables {
            seats: table,
            pledges,
        })
    }

    /// The member's seat in the segment.
    pub fn seat(&self, member: Member, segment: Segment) -> Seat
        ensures is { result ≡ seat_at self.now.seats.all.now member.number segment.number }
        ensures ranged { Ranged result }
        ensures minimum { result.minimum ≤ minimum_limit }
        ensures held { result.held ≤ held_limit }
    {
        self.seats.seat(member, segment)
    }

    /// The member's seat in the segment. Refuses one that nobody has taken.
    pub fn taken_seat(&self, member: Member, segment: Segment) -> Result<Seat, Refusal>
        ensures { MatchResult result (λ x. (x ≡ seat_at self.now.seats.all.now member.number segment.number) × (1 ≤ x.class) × Ranged x × (x.held ≤ held_limit)) (λ e. (e ≡ refusals.NoSeat) × ((seat_at self.now.seats.all.now member.number segment.number).class ≡ 0)) }
    {
        let seat = self.seat(member, segment);
        if !seat.is_taken() {
            return Err(Refusal::NoSeat);
        }
        Ok(seat)
    }

    /// What the member has pledged.
    pub fn pledges_of(&self, member: Member) -> Pledges
        ensures { result ≡ slice_index_or self.now.pledges.now (member.number - 1) no_pledges }
    {
        self.pledges[member.index()]
    }

    // This and the next say of a book what `Seats` says of any table, so that a call has one view.
    /// Whether each seat that the member has is of this class.
    pub fn is_alike(&self, member: Member, class: u64) -> bool
        ensures { Decides result (Alike self.now.seats.all.now member.number class) }
    {
        self.seats.is_alike(member, class)
    }

    /// Whether the segment can hold so much more.
    pub fn has_room(&self, segment: Segment, more: u64) -> bool
        ensures { Decides result (held_in self.now.seats.all.now segment.number + more ≤ held_limit) }
    {
        self.seats.has_room(segment, more)
    }

    /// What the segment holds. Of a book it is always within the ceiling.
    pub fn held_in(&self, segment: Segment) -> u64
        ensures { result ≡ held_in self.now.seats.all.now segment.number }
    {
        self.seats.held_in(segment).unwrap()
    }
}
