// Making a book.

ghost use Rattle.fund.specs.Calls.{Make};

use tables::{Pledges, Seat};
use terms::Refusal;
use terms::limits::{ALL_PLEDGES, ALL_SEATS};

/// Makes a book: every record of both tables becomes zeros, whatever stood there. Refuses tables of wrong lengths alone.
pub fn make(seats: &mut [Seat], pledges: &mut [Pledges]) -> Result<(), Refusal>
    ensures { Make seats.old pledges.old result seats.new pledges.new }
{
    if seats.len() != ALL_SEATS || pledges.len() != ALL_PLEDGES {
        return Err(Refusal::NoBook);
    }
    seats.fill(Seat::default());
    pledges.fill(Pledges::default());
    Ok(())
}
