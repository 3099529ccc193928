// One asset's changes.

ghost use Rattle.std.specs.Prelude.{length};
ghost use Rattle.dayfile.specs.Reading.{changes};
ghost use Rattle.dayfile.specs.Seen.{RowRead};

use dayreport::Fault;
use daytext::signed;
use terms::Refusal;
use terms::limits::CHANGE_LIMIT;

// Reads the changes of one asset, which stand at line n, into its row, which has a place for each scenario.
pub(crate) fn asset_changes(text: &[u8], row: &mut [i32], n: u32) -> Result<(), Fault>
    ensures { RowRead (changes (length row.old) n text.now) result row.new }
{
    // Counted by hand: a line may have more fields than its row has places, and how many there are is tested behind the loop.
    let mut count = 0;
    // A flag, since a change out of range is told only once the line has the right number of them.
    let mut ranged = true;
    for field in text.split(|b| *b == b',') {
        let change = signed(field).ok_or(Fault::Line(Refusal::Field, n))?;
        if change.unsigned_abs() > CHANGE_LIMIT as u64 {
            ranged = false;
        } else if count < row.len() {
            row[count] = change as i32;
        }
        count += 1;
    }
    if count != row.len() {
        return Err(Fault::Line(Refusal::Count, n));
    }
    if !ranged {
        return Err(Fault::Line(Refusal::Sheet, n));
    }
    Ok(())
}
