// Closing out a defaulter's position.

ghost use Rattle.std.specs.Prelude.{◌≡◌, ℕ, ◌<◌, ◌≤◌, length, pos, take, Decides, slice_index_or};
ghost use Rattle.amounts.specs.Closing.{CloseOut, WithinQuantity, contraries, contrary_of};
ghost use Rattle.terms.specs.Limits.{most_positions, quantity_limit};

use share::within::{split, whole};
use terms::Refusal;
use terms::limits::{MOST_POSITIONS, QUANTITY_LIMIT};

// The size of a position of the sign opposite to the quantity's, and 0 of any other.
fn contrary(quantity: i64, position: i64) -> u64
    ensures { result ≡ contrary_of quantity position }
{
    if (quantity < 0) == (position < 0) {
        return 0;
    }
    position.unsigned_abs()
}

fn is_within(quantity: i64) -> bool
    ensures { Decides result (WithinQuantity quantity) }
{
    quantity.unsigned_abs() <= QUANTITY_LIMIT
}

fn all_within(positions: &[i64]) -> bool
    ensures { Decides result ((k : ℕ) → k < length positions.now → WithinQuantity (slice_index_or positions.now k (pos 0))) }
{
    positions.iter().all(|position| is_within(*position))
}

// Writes the contrary sizes of the positions over the first of as many, in their order. An array and no vector of fixed room: pushing on
// one takes longer.
fn measure(quantity: i64, positions: &[i64], sizes: &mut [u64; MOST_POSITIONS])
    requires { length positions.now ≤ most_positions }
    ensures { take (length positions.now) sizes.new ≡ contraries quantity positions.now }
{
    for (i, position) in positions.iter().enumerate() {
        sizes[i] = contrary(quantity, *position);
    }
}

/// Closes out a defaulter's quantity: splits it, unsigned, over the positions of the opposite sign by their sizes; the others get
/// 0.
///
/// Refuses, in this order: parts and positions that differ in number; more than 64 positions, or one beyond ±10,000,000; a
/// quantity of 0 or beyond that; too few contrary contracts.
#[tactic(auto, using(crate::proofs::Closed::whole_small, crate::proofs::Closed::not_0))]
pub fn close_out(quantity: i64, positions: &[i64], parts: &mut [u64]) -> Result<(), Refusal>
    ensures { CloseOut quantity positions.now parts.old result parts.new }
{
    if parts.len() != positions.len() {
        return Err(Refusal::Lengths);
    }
    if positions.len() > MOST_POSITIONS || !all_within(positions) {
        return Err(Refusal::Positions);
    }
    if quantity == 0 || !is_within(quantity) {
        return Err(Refusal::Amount);
    }
    let mut sizes = [0; MOST_POSITIONS];
    measure(quantity, positions, &mut sizes);
    let sizes = &sizes[..positions.len()];
    let size = quantity.unsigned_abs();
    if size > whole(sizes) {
        return Err(Refusal::TooMuch);
    }
    split(size, sizes, parts);
    Ok(())
}
