// The split itself. It asks for a total and weights within their limit, which its callers have tested, and is no part of the
// interface.

ghost use Rattle.std.specs.Prelude.{◌≡◌, ℕ, ◌<◌, ◌≤◌, map, length, slice_index, sum_by};
ghost use Rattle.share.specs.Split.{cut, part_at};
ghost use Rattle.terms.specs.Limits.{split_limit};

use crate::weights::Weighted;

/// The sum of the weights.
pub fn whole<T: Weighted>(items: &[T]) -> u64
    requires { sum_by T.Weighted.weighs items.now ≤ split_limit }
    ensures { result ≡ sum_by T.Weighted.weighs items.now }
{
    items.iter().map(|item| item.weight()).sum()
}

// What falls to weights that add to `sum`, of a total over weights that add to `whole`.
fn cut_at(total: u64, whole: u64, sum: u64) -> u64
    requires { (total ≤ split_limit) × (sum ≤ split_limit) }
    ensures { result ≡ cut total whole sum }
{
    (total * sum).checked_div(whole).unwrap_or(0)
}

/// Writes each part; where nothing has a weight, all parts are 0.
#[tactic(auto, using(crate::proofs::Cuts::part_is, crate::proofs::Cuts::cut_mono, crate::proofs::Cuts::cut_none))]
pub fn split<T: Weighted>(total: u64, items: &[T], parts: &mut [u64])
    requires total { total ≤ split_limit }
    requires whole { sum_by T.Weighted.weighs items.now ≤ split_limit }
    requires room { length parts.old ≡ length items.now }
    ensures { (k : ℕ) → k < length items.now → slice_index parts.new k ≡ part_at total (map T.Weighted.weighs items.now) k }
{
    let whole = whole(items);
    let mut sum = 0;
    let mut before = 0;
    // The parts by their place: of what a loop writes through a `zip` with `iter_mut`, nothing is known after it.
    for (i, item) in items.iter().enumerate() {
        sum += item.weight();
        let up_to = cut_at(total, whole, sum);
        parts[i] = up_to - before;
        before = up_to;
    }
}
