// The calls that write one seat: admission, payment, withdrawal, departure. Each begins with its first refusals one after the
// other, as its list of wants has them; a function for them would answer the view, both numbers and the seat, to be taken apart
// at once.

ghost use Rattle.fund.specs.Calls.{Admit, Depart, Pay, Withdraw};

use crate::joining::Joining;
use tables::{Pledges, Seat, Tables, place_of};
use terms::{Amount, Class, Member, Refusal, Segment};

/// Admits a member to a segment in a class, with its minimum and what it paid.
///
/// Refuses, in this order: tables that are no book; a member or a segment out of range; a seat that is taken; a class that
/// is unknown or unlike the member's other seats; a minimum not as a book has it; a payment below the minimum or out of
/// range, or any for an exempt class; more than the segment may hold. The seat then holds what was paid, its minimum is
/// asked of it, and the rest is 0.
// The class comes as a number, here and wherever a call is told one: a call has to turn down a number that is no class's.
pub fn admit(
    seats: &mut [Seat],
    pledges: &[Pledges],
    member: u64,
    segment: u64,
    class: u64,
    minimum: u64,
    paid: u64,
) -> Result<(), Refusal>
    ensures { Admit seats.old pledges.now member segment class minimum paid result seats.new }
{
    let tables = Tables::read(seats, pledges)?;
    let member = Member::numbered(member).ok_or(Refusal::Member)?;
    let segment = Segment::numbered(segment).ok_or(Refusal::Segment)?;
    if tables.seat(member, segment).is_taken() {
        return Err(Refusal::SeatTaken);
    }
    // The class itself is not needed: the seat keeps the number, and both tests have one refusal.
    if Class::try_from(class).is_err() || !tables.is_alike(member, class) {
        return Err(Refusal::WrongClass);
    }
    let joining = Joining {
        class,
        minimum,
        paid,
    };
    if !joining.minimum_fits() {
        return Err(Refusal::Minimum);
    }
    if !joining.paid_fits() {
        return Err(Refusal::Amount);
    }
    if !tables.has_room(segment, paid) {
        return Err(Refusal::Ceiling);
    }
    seats[place_of(member, segment)] = joining.seat();
    Ok(())
}

/// Pays an amount into a member's contribution to a segment.
///
/// Refuses, in this order: tables that are no book; a member or a segment out of range; no such seat; an exempt class; an
/// amount of 0 or out of range; more than the segment may hold.
pub fn pay(
    seats: &mut [Seat],
    pledges: &[Pledges],
    member: u64,
    segment: u64,
    amount: u64,
) -> Result<(), Refusal>
    ensures { Pay seats.old pledges.now member segment amount result seats.new }
{
    let tables = Tables::read(seats, pledges)?;
    let member = Member::numbered(member).ok_or(Refusal::Member)?;
    let segment = Segment::numbered(segment).ok_or(Refusal::Segment)?;
    let seat = tables.taken_seat(member, segment)?;
    if !seat.shares() {
        return Err(Refusal::Exempt);
    }
    let amount = Amount::numbered(amount).ok_or(Refusal::Amount)?.number();
    if !tables.has_room(segment, amount) {
        return Err(Refusal::Ceiling);
    }
    seats[place_of(member, segment)].held += amount;
    Ok(())
}

/// Takes an amount out of a member's contribution to a segment; no less than is asked of it stays.
///
/// Refuses, in this order: tables that are no book; a member or a segment out of range; no such seat; an amount of 0 or out
/// of range; less than asked would stay.
pub fn withdraw(
    seats: &mut [Seat],
    pledges: &[Pledges],
    member: u64,
    segment: u64,
    amount: u64,
) -> Result<(), Refusal>
    ensures { Withdraw seats.old pledges.now member segment amount result seats.new }
{
    let tables = Tables::read(seats, pledges)?;
    let member = Member::numbered(member).ok_or(Refusal::Member)?;
    let segment = Segment::numbered(segment).ok_or(Refusal::Segment)?;
    let seat = tables.taken_seat(member, segment)?;
    let amount = Amount::numbered(amount).ok_or(Refusal::Amount)?.number();
    if seat.held < amount || seat.held - amount < seat.asked {
        return Err(Refusal::TooLittleLeft);
    }
    seats[place_of(member, segment)].held -= amount;
    Ok(())
}

/// Ends a member's seat in a segment, and answers what it held; the seat is then empty.
///
/// Refuses, in this order: tables that are no book; a member or a segment out of range; no such seat; a seat that holds less
/// than is asked of it.
pub fn depart(
    seats: &mut [Seat],
    pledges: &[Pledges],
    member: u64,
    segment: u64,
) -> Result<u64, Refusal>
    ensures { Depart seats.old pledges.now member segment result seats.new }
{
    let tables = Tables::read(seats, pledges)?;
    let member = Member::numbered(member).ok_or(Refusal::Member)?;
    let segment = Segment::numbered(segment).ok_or(Refusal::Segment)?;
    let seat = tables.taken_seat(member, segment)?;
    if seat.held < seat.asked {
        return Err(Refusal::Short);
    }
    seats[place_of(member, segment)] = Seat::default();
    Ok(seat.held)
}
