// Pledges and releases.

ghost use Rattle.std.specs.Prelude.{◌≡◌, ℕ, ◌+◌, ◌-◌, ◌<◌, ◌≤◌, Ok, Err, OnOk};
ghost use Rattle.house.specs.Pledging.{Changed, Pledge, Release};
ghost use Rattle.tables.specs.Book.{Book};
ghost use Rattle.terms.specs.Limits.{amount_limit};

use crate::kinds::PledgeKind;
use tables::{Pledges, Seat, Tables};
use terms::limits::AMOUNT_LIMIT;
use terms::{Amount, Member, Refusal};

// Member, kind and amount are what the two calls are told. Changes one of a member's pledges: `change` is told the pledge and the
// amount, and answers what the pledge becomes, or refuses.
fn change_pledge<F: FnOnce(u64, u64) -> Result<u64, Refusal>>(
    seats: &[Seat],
    pledges: &mut [Pledges],
    member: u64,
    kind: PledgeKind,
    amount: u64,
    change: F,
) -> Result<(), Refusal>
    requires may { (old a : ℕ) → old ≤ amount_limit → a ≤ amount_limit → F.pre change old a }
    requires small { (old a new : ℕ) → old ≤ amount_limit → a ≤ amount_limit → F.post change old a (Ok new) → new ≤ amount_limit }
    ensures is { Changed (F.post change) seats.now pledges.old member kind amount result pledges.new }
    ensures book { OnOk result (Book seats.now pledges.new) }
{
    let tables = Tables::read(seats, pledges)?;
    let member = Member::numbered(member).ok_or(Refusal::Member)?;
    let amount = Amount::numbered(amount).ok_or(Refusal::Amount)?;
    let before = tables.pledges_of(member);
    let after = change(kind.pledged(before), amount.number())?;
    pledges[member.index()] = kind.with_pledge(before, after);
    Ok(())
}

/// Adds an amount to one of a member's pledges. It needs no seat.
///
/// Refuses, in this order: tables that are no book; a member out of range; an amount of 0 or out of range; a pledge above
/// 1,000,000,000.
pub fn pledge(
    seats: &[Seat],
    pledges: &mut [Pledges],
    member: u64,
    kind: PledgeKind,
    amount: u64,
) -> Result<(), Refusal>
    ensures is { Pledge seats.now pledges.old member kind amount result pledges.new }
    ensures book { OnOk result (Book seats.now pledges.new) }
{
    change_pledge(
        seats,
        pledges,
        member,
        kind,
        amount,
        |before: u64, amount: u64| {
            let after = before + amount;
            if after > AMOUNT_LIMIT {
                return Err(Refusal::Ceiling);
            }
            Ok(after)
        },
    )
}

/// Releases an amount of one of a member's pledges.
///
/// Refuses, in this order: tables that are no book; a member out of range; an amount of 0 or out of range; more than is pledged.
pub fn release(
    seats: &[Seat],
    pledges: &mut [Pledges],
    member: u64,
    kind: PledgeKind,
    amount: u64,
) -> Result<(), Refusal>
    ensures is { Release seats.now pledges.old member kind amount result pledges.new }
    ensures book { OnOk result (Book seats.now pledges.new) }
{
    change_pledge(
        seats,
        pledges,
        member,
        kind,
        amount,
        |before: u64, amount: u64| before.checked_sub(amount).ok_or(Refusal::TooLittleLeft),
    )
}
