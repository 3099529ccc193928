// What is asked of the members of a segment for a fund of a given size, over lists of minimums and means; no tables.
#![tactic(auto)]

pub mod clause;
pub mod within;

pub use clause::{asks_within_bounds, most_asked};

#[cfg(test)]
mod tests {
    use super::within::{Fund, Sharers};
    use sizing::means::Means;
    use sizing::{CoverOne, SizingRule};
    use terms::limits::FUND_LIMIT;

    // The fund that covers the largest of two means, which are gone when it is asked.
    #[tactic(auto, using(sizing::specs::Sizes::size_at_most_sum))]
    fn fund_of(minimums: &[u64; 2]) -> Option<Fund> {
        let means = Means::listed(&[300_001, 100_000])?;
        let size = CoverOne.size(&means);
        if size > FUND_LIMIT || minimums[0] > 50_000 || minimums[1] > 200_000 {
            return None;
        }
        Some(Sharers::of(means, minimums).fund(size))
    }

    #[test]
    fn asks_of_a_fund(rt: HostRuntime) {
        let fund = fund_of(&[50_000, 200_000]);
        assert_eq!(rt; fund.map(|fund| fund.ask(0)), Some(110_000));
        assert_eq!(rt; fund.map(|fund| fund.ask(1)), Some(200_000));
        assert_eq!(rt; fund.map(|fund| fund.ask(2)), Some(0));
    }
}
