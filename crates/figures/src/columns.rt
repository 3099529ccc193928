// What an account adds to the columns of a tally.

ghost use Rattle.std.specs.Prelude.{◌≡◌, ◌<◌, ◌≤◌, true, false, ◌*ℤ◌, neg_ℤ, unsigned_abs, MatchResult};
ghost use Rattle.std.specs.List.{list_all};
ghost use Rattle.figures.specs.Accounts.{Limited, change_ok, column_ok, excess_at, excess_of, gain_limit, gain_in, product_limit, quantity_ok, raised};

use crate::checks::{Holding, Offset};
use crate::kinds::Position;
use terms::Refusal;
use terms::limits::{COLUMN_LIMIT, MOST_SCENARIOS};

// The loss, which is minus the gain, less the offset, if that is positive.
fn excess(gain: i64, offset: Offset) -> u64
    requires { unsigned_abs gain ≤ gain_limit }
    ensures is { result ≡ excess_of (neg_ℤ gain) offset.pesos }
    ensures bounded { result ≤ gain_limit }
{
    let over = -gain - offset.pesos as i64;
    over.max(0) as u64
}

impl Position {
    // What it gains where its asset's price changes so much.
    fn gain(&self, change: i64) -> i64
        requires { (quantity_ok self.now.quantity ≡ true) × (change_ok change ≡ true) }
        ensures is { result ≡ self.now.quantity *ℤ change }
        ensures bounded { unsigned_abs result ≤ product_limit }
    {
        self.quantity * change
    }
}

impl Holding<'_> {
    // What the positions gain in the scenario: the sum of quantity times change.
    fn gain(&self, scenario: usize) -> i64
        requires { scenario < self.now.sheet.scenarios }
        ensures is { result ≡ gain_in self.now.sheet.changes.now self.now.sheet.scenarios scenario self.now.positions.now }
        ensures bounded { unsigned_abs result ≤ gain_limit }
    {
        let mut sum: i64 = 0;
        for p in self.positions {
            sum += p.gain(self.sheet.change(p.asset as usize, scenario));
        }
        sum
    }

    // How much of the loss in column `j` stands above the offset; nothing where there is no such scenario.
    fn excess(&self, j: usize, offset: Offset) -> u64
        ensures is { result ≡ excess_at self.now.sheet.scenarios self.now.sheet.changes.now offset.pesos self.now.positions.now j }
        ensures bounded { result ≤ gain_limit }
    {
        if j < self.sheet.scenarios {
            excess(self.gain(j), offset)
        } else {
            0
        }
    }

    // Raises each scenario's column by the excess there. Refuses a column that would pass its limit. By a loop over the scenarios, and
    // no array that a closure makes: that goes over all 64 columns for each account, however few scenarios there are.
    pub(crate) fn raise(
        &self,
        columns: &mut [u64; MOST_SCENARIOS],
        offset: Offset,
    ) -> Result<(), Refusal>
        requires { Limited columns.old }
        ensures { MatchResult result (λ _. (list_all column_ok columns.new ≡ true) × (columns.new ≡ raised self.now.sheet.scenarios self.now.sheet.changes.now offset.pesos self.now.positions.now columns.old)) (λ e. (list_all column_ok (raised self.now.sheet.scenarios self.now.sheet.changes.now offset.pesos self.now.positions.now columns.old) ≡ false) × (e ≡ Refusal.Column)) }
    {
        for j in 0..self.sheet.scenarios {
            let column = columns[j] + self.excess(j, offset);
            if column > COLUMN_LIMIT {
                return Err(Refusal::Column);
            }
            columns[j] = column;
        }
        Ok(())
    }
}
