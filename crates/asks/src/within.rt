// Helpers for the strike, and the same for means of one's own. They ask for what a book has, and are no part of the interface.

ghost use Rattle.std.specs.Prelude.{◌≡◌, ◌+◌, ◌*◌, ◌<◌, ◌^◌, ◌≤◌, length, sum};
ghost use Rattle.asks.specs.Steps.{AreMinimums, above_sum, ask_at, contribution_of, quota_of};
ghost use Rattle.sizing.specs.Lists.{sum_of};
ghost use Rattle.sizing.specs.Meant.{means_of};
ghost use Rattle.terms.specs.Limits.{figure_limit, fund_limit, minimum_limit};

use sizing::means::Means;
use terms::limits::ROUNDING_STEP;
use terms::rounding::divided_up;

/// The members that share in a segment: their means, and their minimums at the same places. A rule is told the means alone, so
/// the two lists come apart.
#[derive(Clone, Copy)]
pub struct Sharers<'a> {
    means: Means,
    minimums: &'a [u64],
    ghost alike: { AreMinimums minimums.now (length (means_of means)) },
}

impl<'a> Sharers<'a> {
    /// Members with these means and these minimums.
    pub fn of(means: Means, minimums: &'a [u64]) -> Self
        requires { AreMinimums minimums.now (length (means_of means)) }
        ensures means { result.means ≡ means }
        ensures minimums { result.minimums ≡ minimums.entry }
    {
        Sharers { means, minimums }
    }

    /// A fund of this size, for which they are asked.
    pub fn fund(&self, size: u64) -> Fund<'a>
        requires small { size ≤ fund_limit }
        requires covered { size ≤ sum_of (means_of self.now.means) }
        ensures sharers { result.sharers ≡ self.now }
        ensures size { result.quotas.size ≡ size }
    {
        let fund = self.lent().fund(size);
        Fund {
            sharers: *self,
            quotas: fund.quotas,
            least: fund.least,
            above: fund.above,
        }
    }

    // The same members, their means lent.
    fn lent(&self) -> LentSharers<'_>
        ensures means { result.means.now ≡ self.now.means }
        ensures minimums { result.minimums.now ≡ self.now.minimums.now }
    {
        LentSharers::of(&self.means, self.minimums)
    }
}

/// A fund of some size, for which its sharers are asked.
#[derive(Clone, Copy)]
pub struct Fund<'a> {
    sharers: Sharers<'a>,
    quotas: Quotas,
    // The minimums together.
    least: u64,
    // What the quotas have above the minimums, together.
    above: u64,
    ghost total_is: { quotas.total ≡ sum_of (means_of sharers.means) },
    ghost least_is: { least ≡ sum_of sharers.minimums.now },
    ghost above_is: { above ≡ above_sum quotas.size sharers.minimums.now (means_of sharers.means) },
}

impl<'a> Fund<'a> {
    /// What is asked of the member at a place; past the list, of a mean and a minimum of 0.
    pub fn ask(&self, place: usize) -> u64
        ensures { result ≡ ask_at self.now.quotas.size self.now.sharers.minimums.now (means_of self.now.sharers.means) place }
    {
        let fund = LentFund {
            sharers: self.sharers.lent(),
            quotas: self.quotas,
            least: self.least,
            above: self.above,
        };
        fund.ask(place)
    }
}

/// `Sharers` whose means are lent and not copied: a `Means` takes more than 500 bytes.
#[derive(Clone, Copy)]
pub struct LentSharers<'a> {
    means: &'a Means,
    minimums: &'a [u64],
    ghost alike: { AreMinimums minimums.now (length (means_of means.now)) },
}

impl<'a> LentSharers<'a> {
    /// Members with these means and these minimums.
    pub fn of(means: &'a Means, minimums: &'a [u64]) -> Self
        requires { AreMinimums minimums.now (length (means_of means.now)) }
        ensures means { result.means ≡ means.entry }
        ensures minimums { result.minimums ≡ minimums.entry }
    {
        LentSharers { means, minimums }
    }

    /// A fund of this size, for which they are asked.
    #[tactic(auto, using(crate::proofs::Sums::sum_is, crate::proofs::Sums::sum_fits))]
    pub fn fund(&self, size: u64) -> LentFund<'a>
        requires small { size ≤ fund_limit }
        requires covered { size ≤ sum_of (means_of self.now.means.now) }
        ensures sharers { result.sharers ≡ self.now }
        ensures size { result.quotas.size ≡ size }
    {
        let quotas = Quotas {
            size,
            total: total(self.means.as_slice()),
        };
        LentFund {
            sharers: *self,
            quotas,
            least: total(self.minimums),
            above: self.above(&quotas),
        }
    }

    // What the quotas of those that are not excluded have above their minimums, together.
    #[tactic(auto, using(terms::proofs::Adding::sum_to_none, terms::proofs::Adding::sum_to_more, crate::proofs::OneMember::above_is))]
    fn above(&self, quotas: &Quotas) -> u64
        requires { quotas.now.total ≡ sum_of (means_of self.now.means.now) }
        ensures { result ≡ above_sum quotas.now.size self.now.minimums.now (means_of self.now.means.now) }
    {
        let mut sum = 0;
        for (mean, minimum) in self.means.as_slice().iter().zip(self.minimums) {
            sum += quotas.of(*mean).saturating_sub(*minimum);
        }
        sum
    }
}

// The members' parts of a fund of this size, where their means add to `total`.
#[derive(Clone, Copy)]
struct Quotas {
    size: u64,
    total: u64,
    ghost small: { size ≤ fund_limit },
    ghost covered: { size ≤ total },
}

impl Quotas {
    // The quota of a member with this mean.
    fn of(&self, mean: u64) -> u64
        requires { mean ≤ figure_limit }
        ensures is { result ≡ quota_of self.now.size self.now.total mean }
        ensures within { result ≤ mean }
    {
        divided_up(self.size * mean, self.total)
    }
}

/// A `Fund` of sharers whose means are lent.
#[derive(Clone, Copy)]
pub struct LentFund<'a> {
    sharers: LentSharers<'a>,
    quotas: Quotas,
    // The minimums together.
    least: u64,
    // What the quotas have above the minimums, together.
    above: u64,
    ghost total_is: { quotas.total ≡ sum_of (means_of sharers.means.now) },
    ghost least_is: { least ≡ sum_of sharers.minimums.now },
    ghost above_is: { above ≡ above_sum quotas.size sharers.minimums.now (means_of sharers.means.now) },
}

impl<'a> LentFund<'a> {
    /// What is asked of the member at a place; past the list, of a mean and a minimum of 0.
    pub fn ask(&self, place: usize) -> u64
        ensures { result ≡ ask_at self.now.quotas.size self.now.sharers.minimums.now (means_of self.now.sharers.means.now) place }
    {
        let quota = self.quotas.of(self.sharers.means.at(place));
        let minimum = self.sharers.minimums.get(place).copied().unwrap_or(0);
        self.contribution(quota, minimum)
            .next_multiple_of(ROUNDING_STEP)
    }

    // A contribution before it is rounded. Subtraction that stops at 0 leaves the minimum alone where the quota is not above it,
    // and where the minimums reach the size.
    #[tactic(auto, using(crate::proofs::OneMember::contribution_is, crate::proofs::OneMember::added_fits))]
    fn contribution(&self, quota: u64, minimum: u64) -> u64
        requires { (quota ≤ figure_limit) × (minimum ≤ minimum_limit) }
        ensures is { result ≡ contribution_of self.now.quotas.size self.now.least self.now.above quota minimum }
        ensures within { result ≤ fund_limit * figure_limit + minimum_limit }
    {
        let short = self.quotas.size.saturating_sub(self.least);
        minimum + divided_up(short * quota.saturating_sub(minimum), self.above)
    }
}

// What the numbers add to. A function of its own, since inside `fund` the check finds no bound of such a sum.
fn total(list: &[u64]) -> u64
    requires { sum list.now < 2 ^ 64 }
    ensures { result ≡ sum list.now }
{
    list.iter().sum()
}
