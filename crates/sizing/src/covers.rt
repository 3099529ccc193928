// The rules that cover the largest mean, or the two largest.

ghost use Rattle.std.specs.Prelude.{◌≡◌};
ghost use Rattle.sizing.specs.Meant.{means_of};
ghost use Rattle.sizing.specs.Places.{cover_one, cover_two, pick_from};
ghost use Rattle.sizing.specs.Picks.{lawful_one, lawful_two};

use crate::means::Means;
use crate::rule::SizingRule;

// The first place with the largest mean among `start` and the places other than `skip`.
fn largest(means: &Means, skip: usize, start: usize) -> usize
    ensures { result ≡ pick_from skip start (means_of means.now) }
{
    let mut best = start;
    let mut most = means.at(start);
    for (place, &mean) in means.as_slice().iter().enumerate() {
        if most < mean && place != skip {
            best = place;
            most = mean;
        }
    }
    best
}

/// Marks the first largest mean.
#[derive(Clone, Copy)]
pub struct CoverOne;

impl SizingRule for CoverOne {
    ghost marking = { λ _. cover_one };

    ghost lawful = { λ rule. lawful_one };

    fn marked(&self, means: &Means, place: usize) -> bool {
        place < means.count() && place == largest(means, means.count(), 0)
    }
}

/// Marks the first largest mean and, of the others, the first largest among them.
#[derive(Clone, Copy)]
pub struct CoverTwo;

impl SizingRule for CoverTwo {
    ghost marking = { λ _. cover_two };

    ghost lawful = { λ rule. lawful_two };

    fn marked(&self, means: &Means, place: usize) -> bool {
        if place >= means.count() {
            return false;
        }
        let first = largest(means, means.count(), 0);
        place == first || place == largest(means, first, usize::from(first == 0))
    }
}
