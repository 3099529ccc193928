// The proportional split of a total over records with a weight.
#![tactic(auto)]

pub mod laws;
pub mod weights;
pub mod within;

pub use laws::split_stands;
pub use weights::Weighted;
