// Sizing rules: which means of a segment's members a fund must cover, and the size of the fund that does.
#![tactic(auto)]

pub mod covers;
pub mod laws;
pub mod listed;
pub mod means;
pub mod rule;

pub use covers::{CoverOne, CoverTwo};
pub use laws::first_largest_stands;
pub use rule::SizingRule;

#[cfg(test)]
mod tests {
    use super::listed::ListedMeans;

    // The numbers of a list of means, lent by a view that is gone when they are read.
    fn numbers(list: &[u64]) -> Option<&[u64]> {
        Some(ListedMeans::of(list)?.as_slice())
    }

    #[test]
    fn means_in_a_list(rt: HostRuntime) {
        assert_eq!(rt; numbers(&[7, 1_000_000_000]), Some(&[7, 1_000_000_000][..]));
        assert_eq!(rt; numbers(&[7, 1_000_000_001]), None);
        assert_eq!(rt; numbers(&[0; 64]), Some(&[0; 64][..]));
        assert_eq!(rt; numbers(&[0; 65]), None);
        assert_eq!(rt; numbers(&[]), None);
    }

    #[test]
    fn means_of_a_list(rt: HostRuntime) {
        let means = ListedMeans::of(&[3, 5]).map(|listed| listed.means());
        assert_eq!(rt; means.map(|means| means.count()), Some(2));
        assert_eq!(rt; means.map(|means| means.at(1)), Some(5));
        assert_eq!(rt;
            means.as_ref().map(|means| means.as_slice()),
            Some(&[3, 5][..])
        );
    }
}
