// The terms that every level speaks in: limits, refusals, classes and their duties.
#![tactic(auto)]

pub mod classes;
pub mod limits;
pub mod lists;
pub mod numbers;
pub mod refusals;
pub mod rounding;

pub use classes::{Class, Duty};
pub use numbers::{Amount, Day, Member, Segment, UpTo};
pub use refusals::Refusal;
