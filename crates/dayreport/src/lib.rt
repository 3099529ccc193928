// What is told of a day file, a figure or the first fault, and the bytes that are printed of it.
#![tactic(auto)]

pub mod faults;
mod printing;
mod reports;

pub use faults::Fault;
pub use printing::report;
pub use reports::Report;
