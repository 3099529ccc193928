// The individual amounts.

ghost use Rattle.amounts.specs.Individual.{EquityFits, IndividualAmounts, Small, amounts_of, owing, zeros};
ghost use Rattle.std.specs.Prelude.{◌≡◌, ℕ, ◌-◌, ◌<◌, ◌≤◌, length, is_some, Decides, slice_index};
ghost use Rattle.terms.specs.Classes.{class_of};
ghost use Rattle.terms.specs.Limits.{amount_limit};

use crate::given::{Given, Individual};
use terms::limits::{AMOUNT_LIMIT, EQUITY_PARTS};
use terms::{Class, Duty, Refusal};

fn all_small(numbers: &[u64]) -> bool
    ensures { Decides result ((k : ℕ) → k < length numbers.now → slice_index numbers.now k ≤ amount_limit) }
{
    numbers.iter().all(|number| *number <= AMOUNT_LIMIT)
}

impl Given {
    fn is_small(&self) -> bool
        ensures { Decides result (Small self.now) }
    {
        all_small(&[
            self.minimum,
            self.lri,
            self.lri_use,
            self.lmc,
            self.lmc_use,
            self.required,
            self.equity,
        ])
    }

    // What the equity is short of.
    fn shortfall(&self) -> u64
        ensures { result ≡ self.now.required - self.now.equity }
    {
        self.required.saturating_sub(self.equity)
    }

    fn equity_fits(&self) -> bool
        requires { Small self.now }
        ensures { Decides result (EquityFits self.now) }
    {
        EQUITY_PARTS * self.shortfall() <= self.required
    }

    fn amounts(&self) -> Individual
        ensures { result ≡ amounts_of self.now }
    {
        Individual {
            minimum: self.minimum,
            above_lri: self.lri_use.saturating_sub(self.lri),
            above_lmc: self.lmc_use.saturating_sub(self.lmc),
            equity: self.shortfall(),
        }
    }
}

/// The four individual amounts of a member of this class: the minimum, the use above each of the two risk limits, and the
/// shortfall of equity. A class that owes none answers zeros.
///
/// Refuses, in this order: an unknown class; a number above 1,000,000,000; for a class that owes them, equity that is short by
/// more than a tenth of what is required.
// The class comes as a number, since the call has to turn down a number that is no class's.
pub fn individual_amounts(class: u64, given: Given) -> Result<Individual, Refusal>
    ensures { IndividualAmounts class given result }
{
    let class = Class::try_from(class)?;
    if !given.is_small() {
        return Err(Refusal::Amount);
    }
    if !class.owes(Duty::IndividualAmounts) {
        return Ok(Individual::default());
    }
    if !given.equity_fits() {
        return Err(Refusal::EquityShort);
    }
    Ok(given.amounts())
}
