// A default in a house: losses charged to a segment, pledges and releases.
// The tables come to each call as two slices of their owner's, and member and segment as plain numbers, each to be refused by
// itself; 64 charges come as a slice of the caller's.
#![tactic(auto)]

pub mod kinds;
pub mod losing;
pub mod pledging;

pub use kinds::PledgeKind;
pub use losing::loss;
pub use pledging::{pledge, release};
