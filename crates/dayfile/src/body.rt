// The lines after the sheet: accounts, each with its positions, and the end.

ghost use Rattle.std.specs.Prelude.{◌≡◌, ◌≤◌, List, [], ◌++◌, ℕ, length, codes, Decides, IfOk, None};
ghost use Rattle.dayfile.specs.Days.{taking};
ghost use Rattle.dayfile.specs.Reading.{run};
ghost use Rattle.dayfile.specs.Seen.{BodyRead, closed_by, columns_by, count_of, hand_of};
ghost use Rattle.daytext.specs.Text.{parted};
ghost use Rattle.figures.specs.Accounts.{Added};
ghost use Rattle.terms.specs.Limits.{most_positions};

use crate::fields::{account, position};
use crate::lines::Lines;
use daykeys::{Row, row_of};
use dayreport::Fault;
use daytext::plain;
use figures::{Account, Position, Tally};
use terms::Refusal;
use terms::limits::MOST_POSITIONS;

// The account in hand, the line it stands at, and how many positions it has. They follow it, so it is added only once they
// have ended. The positions are the caller's list, which begins with them.
#[derive(Clone, Copy)]
pub(crate) struct Open {
    pub(crate) line: u32,
    pub(crate) account: Account,
    pub(crate) count: usize,
}

// Adds the account in hand, if there is one, with its positions, with which `held` begins.
fn settle(
    tally: &mut Tally,
    sheet: &[i32],
    hand: Option<Open>,
    held: &[Position],
) -> Result<(), Fault>
    requires { count_of hand ≤ length held.now }
    ensures fault { result ≡ closed_by (taking tally.old.scenarios sheet.now) tally.old.columns (hand_of hand held.now) }
    ensures after { Added tally.old tally.new (columns_by (taking tally.old.scenarios sheet.now) tally.old.columns (hand_of hand held.now)) }
{
    let Some(open) = hand else {
        return Ok(());
    };
    tally
        .add(sheet, open.account, &held[..open.count])
        .map_err(|refusal| Fault::Tally(refusal, open.line))
}

// Whether the line belongs to the account in hand.
fn is_position(line: &[u8]) -> bool
    ensures { Decides result ((t : List ℕ) × (line.now ≡ codes "pos=" ++ t)) }
{
    matches!(row_of(line), Some(Row::Position(_)))
}

// Reads the lines after the sheet into the tally. Answers how many positions the last account has: `held` begins with
// them.
pub(crate) fn accounts(
    lines: &mut Lines,
    tally: &mut Tally,
    sheet: &[i32],
    held: &mut [Position],
) -> Result<usize, Fault>
    requires long { length held.old ≡ most_positions }
    ensures is { BodyRead (taking tally.old.scenarios sheet.now) tally.old.columns (run (taking tally.old.scenarios sheet.now) [] tally.old.columns None lines.old.number (parted 10 lines.old.rest.now)) result held.new tally.new.columns }
    ensures kept { (tally.new.closing ≡ tally.old.closing) × (tally.new.scenarios ≡ tally.old.scenarios) }
    ensures few { IfOk result (λ k. k ≤ most_positions) }
{
    // Variables of their own: as fields of one struct, each call that changes one would have to say that the others stay.
    let mut begun: u32 = 0;
    let mut hand: Option<Open> = None;
    loop {
        let n = lines.number;
        let Some(line) = lines.line() else {
            if !is_position(lines.rest) {
                settle(tally, sheet, hand, held)?;
            }
            return Err(Fault::Line(Refusal::Key, n));
        };
        match row_of(line) {
            Some(Row::Position(text)) => {
                let open = hand.ok_or(Fault::Line(Refusal::Key, n))?;
                let p = position(text).ok_or(Fault::Line(Refusal::Field, n))?;
                if open.count == MOST_POSITIONS {
                    return Err(Fault::Tally(Refusal::Positions, open.line));
                }
                held[open.count] = p;
                hand = Some(Open {
                    count: open.count + 1,
                    ..open
                });
            }
            Some(Row::Account(text)) => {
                settle(tally, sheet, hand, held)?;
                let account = account(text).ok_or(Fault::Line(Refusal::Field, n))?;
                hand = Some(Open {
                    line: n,
                    account,
                    count: 0,
                });
                begun += 1;
            }
            Some(Row::End(text)) => {
                settle(tally, sheet, hand, held)?;
                let k = plain(text).ok_or(Fault::Line(Refusal::Field, n))?;
                if k != begun as u64 {
                    return Err(Fault::Line(Refusal::Count, n));
                }
                if lines.rest.len() > 0 {
                    return Err(Fault::Line(Refusal::TooLong, lines.number));
                }
                return Ok(hand.map_or(0, |open| open.count));
            }
            None => {
                settle(tally, sheet, hand, held)?;
                return Err(Fault::Line(Refusal::Key, n));
            }
        }
    }
}
