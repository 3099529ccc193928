// Means that stay in a borrowed list.

ghost use Rattle.std.specs.Prelude.{◌≡◌, MatchOption};
ghost use Rattle.sizing.specs.Lists.{AreMeans};
ghost use Rattle.sizing.specs.Meant.{means_of};

use crate::means::Means;

/// A borrowed list that is known to be a list of means: 1 to 64 numbers, each at most 1,000,000,000. It lends them for as long as
/// the list lives; `Means`, with numbers of its own, lends those for as long as it lives itself.
#[derive(Clone, Copy)]
pub struct ListedMeans<'a> {
    list: &'a [u64],
    ghost known: { AreMeans list.now },
}

impl<'a> ListedMeans<'a> {
    /// The list, or `None` where it is no list of means.
    pub fn of(list: &'a [u64]) -> Option<Self>
        ensures { MatchOption result (AreMeans list.now → ⊥) (λ m. m.list.now ≡ list.now) }
    {
        // tested as `Means` are
        Means::listed(list)?;
        Some(ListedMeans { list })
    }

    /// All of them, by place.
    pub fn as_slice(&self) -> &'a [u64]
        ensures { result.now ≡ self.now.list.now }
    {
        self.list
    }

    /// The same means with numbers of their own, as rules are given them.
    pub fn means(&self) -> Means
        ensures { means_of result ≡ self.now.list.now }
    {
        Means::listed(self.list).unwrap()
    }
}
