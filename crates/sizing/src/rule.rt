// What a sizing rule is.

ghost use Rattle.sizing.specs.Marks.{Lawful, Marking, size_of};
ghost use Rattle.sizing.specs.Meant.{means_of};
ghost use Rattle.std.specs.Prelude.{◌≡◌};

use crate::means::Means;

/// A rule that marks members of a segment by their means; the size of the fund is the sum of the marked means.
///
/// Asking a rule changes nothing, and it never refuses. A rule is one of these by what it proves: that `marked` answers its
/// marking, that it marks nothing past the list, and that the size is at least the largest mean.
pub trait SizingRule {
    // The places that the rule marks, fixed by the means and by its own settings.
    ghost marking: { Self → Marking };

    /// Whether the place is marked; a place past the list is not.
    fn marked(&self, means: &Means, place: usize) -> bool
        ensures { result ≡ marking self.now (means_of means.now) place };

    /// The size of the fund: the sum of the marked means.
    #[tactic(auto, using(terms::proofs::Adding::sum_to_none, terms::proofs::Adding::sum_to_more))]
    fn size(&self, means: &Means) -> u64
        ensures { result ≡ size_of (marking self.now (means_of means.now)) (means_of means.now) }
    {
        let mut sum = 0;
        for (place, &mean) in means.as_slice().iter().enumerate() {
            if self.marked(means, place) {
                sum += mean;
            }
        }
        sum
    }

    ghost lawful: { (rule : Self) → Lawful (marking rule) };
}
