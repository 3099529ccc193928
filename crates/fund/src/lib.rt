// The calls on the fund book. Each is judged by the tables and its inputs; a refused call changes nothing.
// The tables come to each call as two slices of their owner's, and member and segment as plain numbers, each to be refused by
// itself.
#![tactic(auto)]

pub mod booking;
mod joining;
pub mod laws;
pub mod making;
pub mod seats;
pub mod unbooked;

pub use booking::book;
pub use laws::books_stay;
pub use making::make;
pub use seats::{admit, depart, pay, withdraw};
pub use unbooked::Unbooked;
