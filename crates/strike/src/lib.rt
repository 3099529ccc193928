// The strike of a segment, for any sizing rule.
// The tables come to each call as two slices of their owner's, and member and segment as plain numbers, each to be refused by
// itself; 64 rows come as a slice of the caller's.
#![tactic(auto)]

pub mod rows;
mod sharing;
pub mod striking;

pub use rows::Row;
pub use striking::strike;
