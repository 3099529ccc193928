// The tests that an account has to pass before it is tallied. What has passed one is of a type of its own.

ghost use Rattle.std.specs.Prelude.{◌≡◌, ◌*◌, ◌<◌, ◌≤◌, true, false, length, MatchResult};
ghost use Rattle.std.specs.List.{list_all};
ghost use Rattle.figures.specs.Accounts.{assets_of, change_in, change_ok, margins_ok, offset_of, position_ok, positions_ok, sheet_ok};
ghost use Rattle.terms.specs.Limits.{margin_limit, most_positions, most_scenarios};

use crate::kinds::{Account, Kind, Position};
use terms::Refusal;
use terms::limits::{CHANGE_LIMIT, MARGIN_LIMIT, MOST_ASSETS, MOST_POSITIONS, QUANTITY_LIMIT};

// A sheet that passed its test: the changes of asset 0 in each scenario, then those of asset 1, and so on.
#[derive(Clone, Copy)]
pub(crate) struct Sheet<'a> {
    changes: &'a [i32],
    pub(crate) scenarios: usize,
    assets: usize,
    ghost long: { length changes.now ≡ assets * scenarios },
    ghost narrow: { scenarios ≤ most_scenarios },
    ghost small: { list_all change_ok changes.now ≡ true },
}

// Positions that passed their test, and the sheet that has their assets.
#[derive(Clone, Copy)]
pub(crate) struct Holding<'a> {
    pub(crate) sheet: Sheet<'a>,
    pub(crate) positions: &'a [Position],
    ghost few: { length positions.now ≤ most_positions },
    ghost held: { list_all (position_ok sheet.assets) positions.now ≡ true },
}

// What may be set against an account's loss.
#[derive(Clone, Copy)]
pub(crate) struct Offset {
    pub(crate) pesos: u64,
    ghost small: { pesos ≤ margin_limit },
}

fn changes_ok(changes: &[i32]) -> bool
    ensures { result ≡ list_all change_ok changes.now }
{
    changes
        .iter()
        .all(|change| change.unsigned_abs() <= CHANGE_LIMIT)
}

fn position_ok(p: &Position, assets: u64) -> bool
    ensures { result ≡ position_ok assets p.now }
{
    p.asset < assets && (1..=QUANTITY_LIMIT).contains(&p.quantity.unsigned_abs())
}

fn positions_ok(positions: &[Position], assets: u64) -> bool
    ensures { result ≡ list_all (position_ok assets) positions.now }
{
    positions.iter().all(|p| position_ok(p, assets))
}

impl<'a> Sheet<'a> {
    // Refuses changes that are not those of 1 to 64 whole assets, each of them in range.
    pub(crate) fn read(scenarios: usize, changes: &'a [i32]) -> Result<Sheet<'a>, Refusal>
        requires { (1 ≤ scenarios) × (scenarios ≤ most_scenarios) }
        ensures { MatchResult result (λ s. (sheet_ok scenarios changes.now ≡ true) × (s.changes.now ≡ changes.now) × (s.scenarios ≡ scenarios) × (s.assets ≡ assets_of scenarios changes.now)) (λ e. (sheet_ok scenarios changes.now ≡ false) × (e ≡ Refusal.Sheet)) }
    {
        let assets = changes.len() / scenarios;
        if !(1..=MOST_ASSETS).contains(&assets)
            || changes.len() % scenarios != 0
            || !changes_ok(changes)
        {
            return Err(Refusal::Sheet);
        }
        Ok(Sheet {
            changes,
            scenarios,
            assets,
        })
    }

    // How much the asset's price changes in the scenario.
    pub(crate) fn change(&self, asset: usize, scenario: usize) -> i64
        requires { (asset < self.now.assets) × (scenario < self.now.scenarios) }
        ensures is { result ≡ change_in self.now.changes.now self.now.scenarios scenario asset }
        ensures small { change_ok result ≡ true }
    {
        self.changes[asset * self.scenarios + scenario] as i64
    }

    // Refuses more than 64 positions, an asset that is not in the sheet, and a quantity that is 0 or out of range.
    pub(crate) fn holding(&self, positions: &'a [Position]) -> Result<Holding<'a>, Refusal>
        ensures { MatchResult result (λ h. (positions_ok self.now.assets positions.now ≡ true) × (h.sheet ≡ self.now) × (h.positions.now ≡ positions.now)) (λ e. (positions_ok self.now.assets positions.now ≡ false) × (e ≡ Refusal.Positions)) }
    {
        if positions.len() > MOST_POSITIONS || !positions_ok(positions, self.assets as u64) {
            return Err(Refusal::Positions);
        }
        Ok(Holding {
            sheet: *self,
            positions,
        })
    }
}

impl Account {
    // What may be set against the account's loss: all of an own account's required margin, but of a client's no more
    // than was posted. Refuses a margin above its limit.
    pub(crate) fn offset(self) -> Result<Offset, Refusal>
        ensures { MatchResult result (λ offset. (margins_ok self ≡ true) × (offset.pesos ≡ offset_of self)) (λ e. (margins_ok self ≡ false) × (e ≡ Refusal.Margin)) }
    {
        if self.required > MARGIN_LIMIT || self.posted > MARGIN_LIMIT {
            return Err(Refusal::Margin);
        }
        let pesos = match self.kind {
            Kind::Own => self.required,
            Kind::Client => self.required.min(self.posted),
        };
        Ok(Offset { pesos })
    }
}
