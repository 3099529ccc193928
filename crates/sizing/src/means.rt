// The means of a segment, with their bounds in the type, so that no rule has anything to ask for.

ghost use Rattle.std.specs.Prelude.{◌≡◌, length};
ghost use Rattle.sizing.specs.Lists.{Bounded};
ghost use Rattle.terms.specs.Limits.{all_members};

use terms::limits::{ALL_MEMBERS, FIGURE_LIMIT};

/// The means of the members that share in a segment, in the order of their numbers: 1 to 64 numbers, each at most 1,000,000,000.
// Its own numbers, with their count, and no view of a list: so whoever has one may keep it and hand it on, with no list that has
// to outlive it; and the kit's `ArrayVec` is not `Copy`.
#[derive(Clone, Copy)]
pub struct Means {
    list: [u64; ALL_MEMBERS],
    count: usize,
    ghost long: { length list ≡ all_members },
    ghost bounded: { Bounded list count },
}

impl Means {
    ghost use Rattle.std.specs.Prelude.{◌≡◌, ◌≤◌, take, MatchOption, slice_index};
    ghost use Rattle.sizing.specs.Lists.{AreMeans};
    ghost use Rattle.sizing.specs.Meant.{means_of};
    ghost use Rattle.terms.specs.Limits.{figure_limit};

    /// The first `count` numbers of the list, or `None` where they are no list of means.
    pub fn of(list: [u64; ALL_MEMBERS], count: usize) -> Option<Self>
        ensures { MatchOption result (Bounded list count → ⊥) (λ m. (m.list ≡ list) × (m.count ≡ count)) }
    {
        if count == 0
            || count > ALL_MEMBERS
            || list[..count].iter().any(|mean| *mean > FIGURE_LIMIT)
        {
            return None;
        }
        Some(Means { list, count })
    }

    /// The numbers of the list, or `None` where they are no list of means.
    pub fn listed(list: &[u64]) -> Option<Self>
        ensures { MatchOption result (AreMeans list.now → ⊥) (λ m. means_of m ≡ list.now) }
    {
        if list.len() > ALL_MEMBERS {
            return None;
        }
        let mut own = [0; ALL_MEMBERS];
        own[..list.len()].copy_from_slice(list);
        Means::of(own, list.len())
    }

    /// How many means there are.
    pub fn count(&self) -> usize
        ensures { result ≡ self.now.count }
    {
        self.count
    }

    /// The mean at a place; 0 past the list. A plain number with its limit beside: a rule counts with it.
    pub fn at(&self, place: usize) -> u64
        ensures is { result ≡ slice_index (take self.now.count self.now.list) place }
        ensures within { result ≤ figure_limit }
    {
        self.as_slice().get(place).copied().unwrap_or(0)
    }

    /// All of them, by place, known to be a list of means: a rule goes over them.
    #[tactic(auto, using(crate::specs::Picks::are_means))]
    pub fn as_slice(&self) -> &[u64]
        ensures is { result.now ≡ means_of self.now }
        ensures known { AreMeans result.now }
    {
        &self.list[..self.count]
    }
}
