// The whole file, into the caller's lists.

ghost use Rattle.dayfile.specs.Outcome.{DayRead, Exactly, Outcome, answer_of, lengths_ok};
ghost use Rattle.dayfile.specs.Reading.{reading};
ghost use Rattle.terms.specs.Limits.{most_changes, most_positions};
ghost use Rattle.std.specs.Prelude.{◌≡◌, true, length, replicate, pos};

use crate::body::accounts;
use crate::head::{checked, first_lines};
use crate::lines::Lines;
use crate::sheets::sheet;
use dayreport::Fault;
use figures::{Figure, Position};
use terms::Refusal;
use terms::limits::{MOST_CHANGES, MOST_POSITIONS};

// Reads a day into the caller's lists, which have their lengths. The changes are zeros before.
fn day(bytes: &[u8], changes: &mut [i32], positions: &mut [Position]) -> Result<Figure, Fault>
    requires zeros { changes.old ≡ replicate (length changes.old) (pos 0) }
    requires long { (length changes.old ≡ most_changes) × (length positions.old ≡ most_positions) }
    ensures { DayRead (reading bytes.now) result changes.new positions.new }
{
    let mut lines = Lines::of(bytes)?;
    let head = first_lines(&mut lines)?;
    let heading = checked(head)?;
    let scenarios = head.scenarios as usize;
    let assets = sheet(&mut lines, scenarios, changes)?;
    let mut tally = heading.open();
    let count = accounts(
        &mut lines,
        &mut tally,
        &changes[..assets * scenarios],
        positions,
    )?;
    positions[count..].fill(Position::default());
    Ok(tally.strike())
}

// The two lists are the caller's, each for itself.
fn lengths_ok(changes: &[i32], positions: &[Position]) -> bool
    ensures { result ≡ lengths_ok changes.now positions.now }
{
    changes.len() == MOST_CHANGES && positions.len() == MOST_POSITIONS
}

/// Reads a day file into its figure, or tells its first fault.
///
/// The caller brings a list of 4,096 changes and one of 64 positions. Where a length is wrong, that is told at line 1
/// and both lists stay. After any other fault both hold zeros. Otherwise they hold the sheet and the last account's
/// positions, and zeros beyond.
///
/// A figure is answered exactly where the bytes are those that a good day writes, and it is that day's figure.
pub fn read(bytes: &[u8], changes: &mut [i32], positions: &mut [Position]) -> Result<Figure, Fault>
    ensures outcome { Outcome bytes.now changes.old positions.old result changes.new positions.new }
    ensures exactly { lengths_ok changes.old positions.old ≡ true → Exactly bytes.now (answer_of result) }
{
    if !lengths_ok(changes, positions) {
        return Err(Fault::Line(Refusal::Lengths, 1));
    }
    changes.fill(0);
    let answer = day(bytes, changes, positions);
    if answer.is_err() {
        changes.fill(0);
        positions.fill(Position::default());
    }
    answer
}
