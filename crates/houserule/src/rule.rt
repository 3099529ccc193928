// A rule that marks every place.

ghost use Rattle.houserule.specs.Marking.{mark_all};
ghost use Rattle.std.specs.Prelude.{length};
ghost use Rattle.std.proofs.lemmas.Bool.{le-ltb, lt-ltb};
ghost use Rattle.sizing.specs.Sizes.{marked_at_most_size};

use sizing::SizingRule;
use sizing::means::Means;

/// Marks every place of the list, so that the fund is the sum of all means.
#[derive(Clone, Copy)]
pub(crate) struct MarkAll;

impl SizingRule for MarkAll {
    ghost marking = { λ _. mark_all };

    ghost lawful = { λ rule.
        record {
          past = λ means are k l. le-ltb k (length means) l;
          largest = λ means are k l. marked_at_most_size (mark_all means) means k l (lt-ltb k (length means) l);
        } };

    fn marked(&self, means: &Means, place: usize) -> bool {
        place < means.count()
    }
}
