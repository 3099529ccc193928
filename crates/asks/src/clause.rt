// What a house can print: how much a member can be asked for.

ghost use Rattle.asks.specs.Bounds.{AsksWithinBounds, NeverAskedMore, most_asked};
ghost use Rattle.std.specs.Prelude.{◌≡◌};

use terms::limits::ROUNDING_STEP;

/// The most that a member can be asked for in a strike, told by its own minimum and mean alone: the larger of the two,
/// rounded up to 10,000. However the others trade, and whatever rule sizes the fund.
#[tactic(auto, using(crate::proofs::Bounding::never_more))]
pub fn most_asked(minimum: u64, mean: u64) -> u128
    ensures is { result ≡ most_asked minimum mean }
    ensures never { NeverAskedMore minimum mean result }
{
    let larger = u128::from(minimum.max(mean));
    let step = u128::from(ROUNDING_STEP);
    larger.next_multiple_of(step)
}

/// The theorem that the four steps keep the bounds of asks.
pub fn asks_within_bounds()
    ensures { AsksWithinBounds }
{}
