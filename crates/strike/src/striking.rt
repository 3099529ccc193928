// The strike.

ghost use Rattle.std.specs.Prelude.{◌≡◌, ℕ, ◌+◌, ◌<◌, ◌≤◌, length, IfOk, if◌then◌else◌, OnOk, slice_index};
ghost use Rattle.sizing.specs.Meant.{means_of as means_list};
ghost use Rattle.asks.specs.Steps.{ask_at};
ghost use Rattle.strike.specs.Members.{place_of};
ghost use Rattle.strike.specs.Promises.{AsksBounded};
ghost use Rattle.strike.specs.Rows.{row_at, unasked};
ghost use Rattle.strike.specs.Strike.{Strike, members_in, settled, settled_by};
ghost use Rattle.tables.specs.Book.{Book, IsMember, IsSegment};
ghost use Rattle.terms.specs.Limits.{all_members, all_seats};

use crate::rows::Row;
use crate::sharing::{Gathered, StruckSegment};
use asks::within::{LentFund, LentSharers};
use sizing::SizingRule;
use sizing::means::Means;
use tables::{Pledges, Seat, Tables, place_of};
use terms::limits::{ALL_MEMBERS, FUND_LIMIT};
use terms::{Member, Refusal, Segment};

impl StruckSegment<'_> {
    // Tells each member its ask and its mark, which are given by place.
    fn tell<R: SizingRule>(&self, rule: &R, means: &Means, fund: &LentFund, rows: &mut [Row])
        requires { length rows.old ≡ all_members }
        ensures { (m : ℕ) → IsMember m → row_at rows.new m ≡ (if (members_in self.now.tables.seats.all.now self.now.segment.number).shares m then (record { ask = ask_at fund.now.quotas.size fund.now.sharers.minimums.now (means_list fund.now.sharers.means.now) (place_of (members_in self.now.tables.seats.all.now self.now.segment.number) m); marked = R.SizingRule.marking rule.now (means_list means.now) (place_of (members_in self.now.tables.seats.all.now self.now.segment.number) m) }) else unasked) }
    {
        // Counted by hand: only members that share have a place. Rows are written by member: of what an iterator lends to be
        // written, nothing is known afterwards.
        let mut place = 0;
        for member in Member::all() {
            let mut row = Row::default();
            if self.tables.seat(member, self.segment).shares() {
                row = Row {
                    ask: fund.ask(place),
                    marked: rule.marked(means, place),
                };
                place += 1;
            }
            rows[member.index()] = row;
        }
    }
}

// A seat after a strike: its mean starts anew, and where it shares, this is asked of it.
fn settle(seat: Seat, ask: u64) -> Seat
    ensures { result ≡ settled ask seat }
{
    let asked = if seat.shares() { ask } else { seat.asked };
    Seat {
        asked,
        sum: 0,
        days: 0,
        ..seat
    }
}

// Settles every seat of the segment by what its member's row asks, in the owner's slice. By member: of what an iterator lends to be
// written, nothing is known afterwards.
fn settle_all(seats: &mut [Seat], segment: Segment, rows: &[Row])
    requires { (length seats.old ≡ all_seats) × (length rows.now ≡ all_members) }
    ensures { seats.new ≡ settled_by seats.old segment.number rows.now }
{
    for member in Member::all() {
        let place = place_of(member, segment);
        seats[place] = settle(seats[place], rows[member.index()].ask);
    }
}

/// Strikes a segment: asks anew of the members that share in it what a fund of the rule's size takes, tells them in the rows, and
/// answers the size.
///
/// Refuses, in this order: tables that are no book; a segment out of range; rows that are not 64; a segment in which nobody
/// shares; a sharing seat that holds less than is asked of it; a sharing seat without a figure in its mean; a size above
/// 1,000,000,000. Then each sharing seat's asked amount is what its row asks, and sum and days of every seat of the segment are
/// 0. Rows of members that do not share are 0 and unmarked.
///
/// Whatever the rule, the asks keep their bounds.
pub fn strike<R: SizingRule>(
    seats: &mut [Seat],
    pledges: &[Pledges],
    segment: u64,
    rule: &R,
    rows: &mut [Row],
) -> Result<u64, Refusal>
    ensures is { Strike seats.old pledges.now segment (R.SizingRule.marking rule.now) rows.old result seats.new rows.new }
    ensures bounded { IfOk result (λ size. AsksBounded (members_in seats.old segment) size rows.new) }
    ensures book { OnOk result (Book seats.new pledges.now) }
{
    let tables = Tables::read(seats, pledges)?;
    let segment = Segment::numbered(segment).ok_or(Refusal::Segment)?;
    if rows.len() != ALL_MEMBERS {
        return Err(Refusal::Lengths);
    }
    let struck = StruckSegment { tables, segment };
    let Gathered { means, minimums } = struck.gather();
    let means = Means::listed(means.as_slice()).ok_or(Refusal::NoneShares)?;
    if !struck.all_paid() {
        return Err(Refusal::Short);
    }
    if !struck.all_figured() {
        return Err(Refusal::NoFigure);
    }
    let size = rule.size(&means);
    if size > FUND_LIMIT {
        return Err(Refusal::FundSize);
    }
    let fund = LentSharers::of(&means, minimums.as_slice()).fund(size);
    struck.tell(rule, &means, &fund, rows);
    settle_all(seats, segment, rows);
    Ok(size)
}
