// The two tables that a book's owner brings, and the test that they form a book.
#![tactic(auto)]

pub mod book;
pub mod records;
pub mod seats;
pub mod view;

pub use book::is_book;
pub use records::{Pledges, Seat};
pub use seats::{Seats, place_of};
pub use view::Tables;
