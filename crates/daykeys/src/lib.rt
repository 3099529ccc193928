// The keys of a day file's lines.
#![tactic(auto)]

pub mod keys;

pub use keys::{Key, Row, after_key, row_of};
