// What individual amounts are made from, and what they are.

/// What is given of a member: a minimum, two risk limits with their uses, and its equity with what is required.
#[derive(Clone, Copy, PartialEq, Eq, Debug)]
pub struct Given {
    pub minimum: u64,
    pub lri: u64,
    pub lri_use: u64,
    pub lmc: u64,
    pub lmc_use: u64,
    pub required: u64,
    pub equity: u64,
}

/// The four individual amounts.
#[derive(Clone, Copy, PartialEq, Eq, Debug, Default)]
pub struct Individual {
    pub minimum: u64,
    pub above_lri: u64,
    pub above_lmc: u64,
    pub equity: u64,
}
