// A journal: the book's whole life as text, one call a line, a day file standing in it as it is.
#![tactic(auto)]

pub mod days;
pub mod entries;

pub use days::{day_file, is_day_file, lines_in};
pub use entries::{Entry, entry_of};
