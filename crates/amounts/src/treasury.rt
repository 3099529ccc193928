// The treasury amount. The tables come as two slices of their owner's, and member and segment as plain numbers, each to be
// refused by itself.

ghost use Rattle.amounts.specs.Treasury.{TreasuryAmount};

use tables::{Pledges, Seat, Tables};
use terms::limits::TREASURY_FLOOR;
use terms::{Duty, Member, Refusal, Segment};

// The first refusals stand one after the other, as the list of wants has them.
/// The treasury amount of a member's seat in a segment: the larger of its mean and 700,000.
///
/// Refuses, in this order: tables that are no book; a member or a segment out of range; no such seat; a class that owes none.
pub fn treasury_amount(
    seats: &[Seat],
    pledges: &[Pledges],
    member: u64,
    segment: u64,
) -> Result<u64, Refusal>
    ensures { TreasuryAmount seats.now pledges.now member segment result }
{
    let tables = Tables::read(seats, pledges)?;
    let member = Member::numbered(member).ok_or(Refusal::Member)?;
    let segment = Segment::numbered(segment).ok_or(Refusal::Segment)?;
    let seat = tables.taken_seat(member, segment)?;
    if !seat.owes(Duty::TreasuryAmount) {
        return Err(Refusal::Exempt);
    }
    Ok(seat.mean().max(TREASURY_FLOOR))
}
