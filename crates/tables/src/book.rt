// The test that two tables form a book, whatever numbers stand in them.

ghost use Rattle.std.specs.Prelude.{◌≡◌, ℕ, ◌<◌, ◌≤◌, length, Decides, slice_index_or};
ghost use Rattle.tables.specs.Book.{Book, Empty, Exempt, IsMember, IsSegment, Kind, OneClass, Pledged, Ranged, Sharing, Sound, held_in, no_pledges, no_seat};
ghost use Rattle.terms.specs.Limits.{all_seats, held_limit};

use crate::records::{Pledges, Seat};
use crate::seats::Seats;
use terms::limits::{ALL_PLEDGES, AMOUNT_LIMIT, FIGURE_LIMIT, LAST_DAY, MINIMUM_LIMIT, MOST_DAYS};
use terms::{Class, Duty, Member, Segment};

fn is_empty(seat: &Seat) -> bool
    ensures { Decides result (Empty seat.now) }
{
    *seat == Seat::default()
}

fn is_sharing(seat: &Seat) -> bool
    ensures { Decides result (Sharing seat.now) }
{
    1 <= seat.minimum
        && seat.minimum <= MINIMUM_LIMIT
        && seat.minimum <= seat.asked
        && seat.asked <= AMOUNT_LIMIT
}

fn is_exempt(seat: &Seat) -> bool
    ensures { Decides result (Exempt seat.now) }
{
    seat.minimum == 0 && seat.asked == 0 && seat.held == 0
}

// Days come first: then their product with the largest figure fits.
fn is_ranged(seat: &Seat) -> bool
    ensures { Decides result (Ranged seat.now) }
{
    seat.days <= MOST_DAYS
        && seat.sum <= seat.days * FIGURE_LIMIT
        && seat.last_figure <= FIGURE_LIMIT
        && seat.last_day <= LAST_DAY
}

fn is_kind(seat: &Seat) -> bool
    ensures { Decides result (Kind seat.now) }
{
    if !seat.is_taken() {
        return is_empty(seat);
    }
    match Class::try_from(seat.class) {
        Ok(class) if class.owes(Duty::FundContribution) => is_sharing(seat),
        Ok(_) => is_exempt(seat),
        Err(_) => false,
    }
}

fn is_sound(seat: &Seat) -> bool
    ensures { Decides result (Sound seat.now) }
{
    is_kind(seat) && is_ranged(seat)
}

fn is_pledged(pledges: &Pledges) -> bool
    ensures { Decides result (Pledged pledges.now) }
{
    pledges.individual <= AMOUNT_LIMIT && pledges.extraordinary <= AMOUNT_LIMIT
}

fn all_sound(seats: &[Seat]) -> bool
    ensures { Decides result ((k : ℕ) → k < length seats.now → Sound (slice_index_or seats.now k no_seat)) }
{
    seats.iter().all(|seat| is_sound(seat))
}

fn all_pledged(table: &[Pledges]) -> bool
    ensures { Decides result ((k : ℕ) → k < length table.now → Pledged (slice_index_or table.now k no_pledges)) }
{
    table.iter().all(|pledges| is_pledged(pledges))
}

impl<'a> Seats<'a> {
    // Whether the seats that the member has share one class.
    fn has_one_class(&self, member: Member) -> bool
        ensures { Decides result (OneClass self.now.all.now member.number) }
    {
        self.each_taken(member, |seat| self.is_alike(member, seat.class))
    }

    // This and the next by a loop: `all` over members or segments leaves what it answers unproved, since their iterator is our
    // own.
    fn all_one_class(&self) -> bool
        ensures { Decides result ((m : ℕ) → IsMember m → OneClass self.now.all.now m) }
    {
        for member in Member::all() {
            if !self.has_one_class(member) {
                return false;
            }
        }
        true
    }

    // Whether no segment holds more than its ceiling.
    fn all_within(&self) -> bool
        ensures { Decides result ((s : ℕ) → IsSegment s → held_in self.now.all.now s ≤ held_limit) }
    {
        for segment in Segment::all() {
            if !self.has_room(segment, 0) {
                return false;
            }
        }
        true
    }
}

/// Whether the two tables form a book: their lengths are right; each seat is all zeros, or of a known class and as that
/// class has it; days, sums, days' numbers and figures are in range; a member's seats share one class; no segment holds
/// more than 2,000,000,000, and no pledge is above 1,000,000,000.
pub fn is_book(seats: &[Seat], pledges: &[Pledges]) -> bool
    ensures { Decides result (Book seats.now pledges.now) }
{
    let Some(table) = Seats::of(seats) else {
        return false;
    };
    pledges.len() == ALL_PLEDGES
        && all_sound(seats)
        && all_pledged(pledges)
        && table.all_one_class()
        && table.all_within()
}
