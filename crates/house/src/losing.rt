// A loss: the defaulter's held amount first, the rest over the others that share.

ghost use Rattle.std.specs.Prelude.{◌≡◌, ℕ, ◌+◌, ◌-◌, ◌≤◌, not, ◌&&◌, length, if◌then◌else◌, OnOk};
ghost use Rattle.house.specs.Holders.{stake_of};
ghost use Rattle.house.specs.Loss.{Loss, charged_all, holders_in};
ghost use Rattle.house.specs.Promises.{ChargesFair};
ghost use Rattle.house.specs.Rows.{amount_in};
ghost use Rattle.tables.specs.Book.{Book, IsMember, held_in, seat_at, shares};
ghost use Rattle.terms.specs.Limits.{all_members, all_seats};

use share::within::split;
use tables::{Pledges, Seat, Tables, place_of};
use terms::limits::{ALL_MEMBERS, HELD_LIMIT};
use terms::{Member, Refusal, Segment, UpTo};

// What a member bears another's loss with: what its seat holds, if it shares.
fn stake(seat: &Seat, defaults: bool) -> u64
    ensures { result ≡ (if shares seat.now.class && not defaults then seat.now.held else 0) }
{
    if seat.shares() && !defaults {
        seat.held
    } else {
        0
    }
}

// What each member bears the defaulter's loss with. By member: of what an iterator lends to be written, nothing is known afterwards.
fn stakes_against(tables: &Tables, segment: Segment, defaulter: Member) -> [u64; ALL_MEMBERS]
    ensures { (m : ℕ) → IsMember m → amount_in result m ≡ stake_of (holders_in tables.now.seats.all.now segment.number) defaulter.number m }
{
    let mut stakes = [0; ALL_MEMBERS];
    for member in Member::all() {
        let seat = tables.seat(member, segment);
        stakes[member.index()] = stake(&seat, member == defaulter);
    }
    stakes
}

// Takes every charge from the seat of its member, in the owner's slice, by member for the same reason.
fn charge_all(seats: &mut [Seat], segment: Segment, charges: &[u64])
    requires long { (length seats.old ≡ all_seats) × (length charges.now ≡ all_members) }
    requires enough { (m : ℕ) → IsMember m → amount_in charges.now m ≤ (seat_at seats.old m segment.number).held }
    ensures { seats.new ≡ charged_all seats.old segment.number charges.now }
{
    for member in Member::all() {
        let seat = &mut seats[place_of(member, segment)];
        seat.held -= charges[member.index()];
    }
}

/// Charges a loss of a member's in a segment: the member's held amount first, the rest over the others that share, in proportion
/// to what they hold. The caller's 64 amounts then hold every charge by member.
///
/// Refuses, in this order: tables that are no book; a member or a segment out of range; charges that are not 64; no such seat; an
/// exempt class; an amount of 0 or above 2,000,000,000; more than the segment holds. Held falls by the charges, asked stays.
pub fn loss(
    seats: &mut [Seat],
    pledges: &[Pledges],
    member: u64,
    segment: u64,
    amount: u64,
    charges: &mut [u64],
) -> Result<(), Refusal>
    ensures is { Loss seats.old pledges.now member segment amount charges.old result seats.new charges.new }
    ensures fair { OnOk result (ChargesFair (holders_in seats.old segment) member amount charges.new) }
    ensures held { OnOk result (held_in seats.new segment + amount ≡ held_in seats.old segment) }
    ensures book { OnOk result (Book seats.new pledges.now) }
{
    let tables = Tables::read(seats, pledges)?;
    let member = Member::numbered(member).ok_or(Refusal::Member)?;
    let segment = Segment::numbered(segment).ok_or(Refusal::Segment)?;
    if charges.len() != ALL_MEMBERS {
        return Err(Refusal::Lengths);
    }
    let seat = tables.taken_seat(member, segment)?;
    if !seat.shares() {
        return Err(Refusal::Exempt);
    }
    let amount = UpTo::<HELD_LIMIT>::numbered(amount)
        .ok_or(Refusal::Amount)?
        .number();
    if amount > tables.held_in(segment) {
        return Err(Refusal::TooMuch);
    }
    let own = seat.held.min(amount);
    let stakes = stakes_against(&tables, segment, member);
    split(amount - own, &stakes, charges);
    charges[member.index()] = own;
    charge_all(seats, segment, charges);
    Ok(())
}
