// The sheet: how many assets, and a line of changes for each.

ghost use Rattle.std.specs.Prelude.{◌≡◌, ◌+◌, ◌*◌, ◌≤◌, length, IfOk};
ghost use Rattle.dayfile.specs.Reading.{assets_read, sheet_read};
ghost use Rattle.dayfile.specs.Seen.{AssetRead, SheetRead, asset_read, seen_as};
ghost use Rattle.daytext.specs.Text.{parted};
ghost use Rattle.terms.specs.Limits.{most_assets, most_scenarios};

use crate::lines::Lines;
use crate::rows::asset_changes;
use daykeys::Key;
use dayreport::Fault;
use terms::Refusal;
use terms::limits::MOST_ASSETS;

// The line that counts the assets.
const ASSETS_LINE: u32 = 6;

// The number of assets.
fn assets(lines: &mut Lines) -> Result<usize, Fault>
    requires { lines.old.number ≡ 6 }
    ensures is { seen_as result lines.new ≡ assets_read (parted 10 lines.old.rest.now) }
    ensures within { IfOk result (λ k. (1 ≤ k) × (k ≤ most_assets)) }
    ensures on { IfOk result (λ _. lines.new.number ≡ 7) }
{
    let assets = lines.value(Key::Assets)?;
    if assets < 1 || assets > MOST_ASSETS as u64 {
        return Err(Fault::Line(Refusal::Sheet, ASSETS_LINE));
    }
    Ok(assets as usize)
}

// Reads the next line, one asset's, into its row, which has a place for each scenario.
fn asset(lines: &mut Lines, row: &mut [i32]) -> Result<(), Fault>
    ensures is { AssetRead (asset_read (length row.old) lines.old.number (parted 10 lines.old.rest.now)) result lines.new row.new }
    ensures on { IfOk result (λ _. lines.new.number ≡ lines.old.number + 1) }
{
    let number = lines.number;
    let text = lines.text(Key::Changes)?;
    asset_changes(text, row, number)
}

// Reads the sheet into the front of `out`, and answers how many assets it has.
pub(crate) fn sheet(lines: &mut Lines, scenarios: usize, out: &mut [i32]) -> Result<usize, Fault>
    requires first { lines.old.number ≡ 6 }
    requires room { (most_assets * scenarios ≤ length out.old) × (scenarios ≤ most_scenarios) }
    ensures is { SheetRead scenarios (sheet_read scenarios (parted 10 lines.old.rest.now)) out.old result lines.new out.new }
    ensures within { IfOk result (λ k. (k ≤ most_assets) × (k * scenarios ≤ length out.old)) }
    ensures on { IfOk result (λ k. lines.new.number ≡ 7 + k) }
{
    let count = assets(lines)?;
    // By number: of rows that an iterator lends to be written, nothing is known of the sheet afterwards.
    for a in 0..count {
        let at = a * scenarios;
        asset(lines, &mut out[at..at + scenarios])?;
    }
    Ok(count)
}
