// A heading, checked and opened.

ghost use Rattle.figures.specs.Headings.{Headed, Opened, heading_tests};
ghost use Rattle.std.specs.Prelude.{◌≡◌, IfOk};
ghost use Rattle.terms.specs.Refusing.{first_refusal, refusal_of};

use crate::kinds::{Closing, Heading, Tally};
use terms::limits::MOST_SCENARIOS;
use terms::{Day, Member, Refusal, Segment};

impl Heading {
    // A heading is told plain numbers: each has a refusal.
    /// Checks a heading's numbers. Refuses, in this order, a member, a segment, a day and a scenario count out of range.
    pub fn check(member: u64, segment: u64, day: u64, scenarios: u64) -> Result<Heading, Refusal>
        ensures refusal { refusal_of result ≡ first_refusal (heading_tests member segment day scenarios) }
        ensures is { IfOk result (λ h. Headed h member segment day scenarios) }
    {
        let closing = Closing {
            member: Member::numbered(member).ok_or(Refusal::Member)?,
            segment: Segment::numbered(segment).ok_or(Refusal::Segment)?,
            day: Day::numbered(day).ok_or(Refusal::Day)?,
        };
        if !(1..=MOST_SCENARIOS as u64).contains(&scenarios) {
            return Err(Refusal::Scenarios);
        }
        Ok(Heading {
            closing,
            scenarios: scenarios as usize,
        })
    }

    /// Opens the heading's tally, with a zero in each column.
    pub fn open(self) -> Tally
        ensures { Opened self result }
    {
        let Heading { closing, scenarios } = self;
        Tally {
            closing,
            scenarios,
            columns: [0; MOST_SCENARIOS],
        }
    }
}
