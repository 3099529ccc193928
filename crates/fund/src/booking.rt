// Booking a figure.

ghost use Rattle.std.specs.Prelude.{◌≡◌, ◌≤◌, IfErr};
ghost use Rattle.figures.specs.Strikes.{numbers_of};
ghost use Rattle.fund.specs.Bookings.{answer_of};
ghost use Rattle.fund.specs.Calls.{BookFigure};
ghost use Rattle.terms.specs.Limits.{figure_limit};

use crate::unbooked::Unbooked;
use figures::{Figure, Numbers};
use tables::{Pledges, Seat, Tables, place_of};
use terms::limits::MOST_DAYS;
use terms::{Member, Refusal, Segment};

// Books a figure by its numbers alone, so that any form of figure is booked alike; its seat is written in the owner's slice.
fn booked(
    seats: &mut [Seat],
    pledges: &[Pledges],
    member: Member,
    segment: Segment,
    day: u64,
    amount: u64,
) -> Result<(), Refusal>
    requires { amount ≤ figure_limit }
    ensures { BookFigure seats.old pledges.now (record { member = member.number; segment = segment.number; day = day; amount = amount }) result seats.new }
{
    let tables = Tables::read(seats, pledges)?;
    let seat = tables.taken_seat(member, segment)?;
    if day <= seat.last_day {
        return Err(Refusal::PastDay);
    }
    if seat.days >= MOST_DAYS {
        return Err(Refusal::DaysFull);
    }
    seats[place_of(member, segment)] = Seat {
        sum: seat.sum + amount,
        days: seat.days + 1,
        last_day: day,
        last_figure: amount,
        ..seat
    };
    Ok(())
}

/// Books a figure into the mean of its member's seat, and uses it up.
///
/// Refuses, in this order: tables that are no book; no such seat; a day that is not after the last one booked; a mean that
/// has 66 days already. A refused figure comes back.
pub fn book(seats: &mut [Seat], pledges: &[Pledges], figure: Figure) -> Result<(), Unbooked>
    ensures is { BookFigure seats.old pledges.now (numbers_of figure) (answer_of result) seats.new }
    ensures back { IfErr result (λ u. u.figure ≡ figure) }
{
    let Numbers { day, amount, .. } = figure.read();
    // By `match` and no `map_err`: the figure is moved one way or the other, and a closure would take it in both.
    match booked(
        seats,
        pledges,
        figure.member(),
        figure.segment(),
        day,
        amount,
    ) {
        Ok(()) => {
            let _ = figure.set_aside();
            Ok(())
        }
        Err(refusal) => Err(Unbooked { refusal, figure }),
    }
}
