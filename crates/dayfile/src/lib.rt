// A member's day file: its bytes are read into a figure, or the first fault is told.
#![tactic(auto)]

mod body;
mod fields;
mod head;
mod lines;
mod reading;
mod rows;
mod sheets;

pub use reading::read;
