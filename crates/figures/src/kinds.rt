// The types of the protocol: accounts and positions, and heading, tally and figure with what each of them keeps.

ghost use Rattle.std.specs.Prelude.{◌≡◌, ℕ, ◌≤◌, slice_index};
ghost use Rattle.terms.specs.Limits.{column_limit, figure_limit, most_scenarios};

use terms::limits::MOST_SCENARIOS;
use terms::{Day, Member, Segment};

/// Whose account it is: the member's own, or one that it holds for a client.
#[derive(Clone, Copy, PartialEq, Eq, Debug)]
pub enum Kind {
    Own,
    Client,
}

/// An account without its positions: its kind, and its required and posted margin in pesos.
#[derive(Clone, Copy)]
pub struct Account {
    pub kind: Kind,
    pub required: u64,
    pub posted: u64,
}

/// So many of an asset, negative where they are owed. Assets are counted from 0.
#[derive(Clone, Copy, Default)]
pub struct Position {
    pub asset: u64,
    pub quantity: i64,
}

/// One member's closing in a segment on a day.
#[derive(Drop)]
pub(crate) struct Closing {
    pub(crate) member: Member,
    pub(crate) segment: Segment,
    pub(crate) day: Day,
}

/// A checked heading. It only opens a tally.
#[derive(Drop)]
pub struct Heading {
    pub(crate) closing: Closing,
    // A plain count, here and in the tally: as an `UpTo` it would be turned into a `usize` wherever it counts changes or columns.
    pub(crate) scenarios: usize,
    ghost counts: { (1 ≤ scenarios) × (scenarios ≤ most_scenarios) },
}

/// The losses of a member's accounts above their offsets, a column for each scenario. It takes accounts, and is struck.
#[derive(Drop)]
pub struct Tally {
    pub(crate) closing: Closing,
    pub(crate) scenarios: usize,
    pub(crate) columns: [u64; MOST_SCENARIOS],
    ghost counts: { (1 ≤ scenarios) × (scenarios ≤ most_scenarios) },
    ghost small: { (k : ℕ) → slice_index columns k ≤ column_limit },
    ghost unused: { (k : ℕ) → scenarios ≤ k → slice_index columns k ≡ 0 },
}

/// A struck figure, in mils. It is neither `Copy` nor `Drop`: it can't be had twice, and it can't be let go unspent.
pub struct Figure {
    pub(crate) closing: Closing,
    pub(crate) amount: u64,
    ghost small: { amount ≤ figure_limit },
}

/// What a figure says, by numbers alone: they may be copied, and book nothing.
#[derive(Clone, Copy, PartialEq, Eq, Debug)]
pub struct Numbers {
    pub member: u64,
    pub segment: u64,
    pub day: u64,
    pub amount: u64,
}
