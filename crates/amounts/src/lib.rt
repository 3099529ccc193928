// Amounts asked beside the fund, and closing out.
#![tactic(auto)]

pub mod closing;
pub mod given;
pub mod individual;
pub mod treasury;

pub use closing::close_out;
pub use given::{Given, Individual};
pub use individual::individual_amounts;
pub use treasury::treasury_amount;
