// Lines 1 to 5, and the heading that they make.

ghost use Rattle.std.specs.Prelude.{◌≡◌, IfOk};
ghost use Rattle.dayfile.specs.Reading.{headed, lines_read};
ghost use Rattle.dayfile.specs.Seen.{judged, seen_as};
ghost use Rattle.daytext.specs.Text.{parted};
ghost use Rattle.figures.specs.Headings.{Headed, heading_tests};
ghost use Rattle.terms.specs.Refusing.{first_refusal};

use crate::lines::Lines;
use daykeys::Key;
use dayreport::Fault;
use figures::Heading;
use terms::Refusal;

// What the first lines say, before it is checked.
#[derive(Clone, Copy)]
pub(crate) struct Head {
    pub(crate) member: u64,
    pub(crate) segment: u64,
    pub(crate) day: u64,
    pub(crate) scenarios: u64,
}

// The line that ends the heading: its faults are told there.
const LAST_LINE: u32 = 5;

// Reads lines 1 to 5.
pub(crate) fn first_lines(lines: &mut Lines) -> Result<Head, Fault>
    requires { lines.old.number ≡ 1 }
    ensures is { seen_as result lines.new ≡ lines_read (parted 10 lines.old.rest.now) }
    ensures on { IfOk result (λ _. lines.new.number ≡ 6) }
{
    let form = lines.value(Key::Form)?;
    if form != 1 {
        return Err(Fault::Line(Refusal::Field, 1));
    }
    Ok(Head {
        member: lines.value(Key::Member)?,
        segment: lines.value(Key::Segment)?,
        day: lines.value(Key::Day)?,
        scenarios: lines.value(Key::Scenarios)?,
    })
}

// The heading that the first lines make. Its refusal is told at the last of them.
pub(crate) fn checked(head: Head) -> Result<Heading, Fault>
    ensures fault { judged result ≡ headed (first_refusal (heading_tests head.member head.segment head.day head.scenarios)) }
    ensures is { IfOk result (λ h. Headed h head.member head.segment head.day head.scenarios) }
{
    Heading::check(head.member, head.segment, head.day, head.scenarios).map_err(
        |refusal| Fault::Heading(refusal, LAST_LINE),
    )
}
