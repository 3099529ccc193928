// From a member's accounts to its stress figure: a heading opens a tally, a tally takes accounts and is struck, and a
// struck figure is read and set aside.
#![tactic(auto)]

mod checks;
mod columns;
mod kinds;
mod opening;
mod tallying;

pub use kinds::{Account, Figure, Heading, Kind, Numbers, Position, Tally};

#[cfg(test)]
mod tests {
    use super::*;
    use std::test::Fail;
    use terms::Refusal;

    const OWN: Account = Account {
        kind: Kind::Own,
        required: 0,
        posted: 0,
    };

    // So many short of asset 0, which loses where its price rises.
    fn short(quantity: i64) -> [Position; 1] {
        [Position { asset: 0, quantity }]
    }

    // What a tally of one scenario says, once a first and a second account were added, in which asset 0 rises by `rise`.
    fn struck(rise: i32, first: i64, second: i64) -> Result<Numbers, Refusal> {
        let mut tally = Heading::check(64, 5, 1_000_000, 1)?.open();
        tally.add(&[rise], OWN, &short(first))?;
        tally.add(&[rise], OWN, &short(second))?;
        Ok(tally.strike().set_aside())
    }

    #[test]
    fn headings_at_their_limits(rt: HostRuntime) {
        assert_eq!(rt; Heading::check(64, 5, 1_000_000, 64).err(), None);
        assert_eq!(rt; Heading::check(65, 6, 0, 65).err(), Some(Refusal::Member));
        assert_eq!(rt; Heading::check(1, 6, 0, 65).err(), Some(Refusal::Segment));
        assert_eq!(rt;
            Heading::check(1, 1, 1_000_001, 65).err(),
            Some(Refusal::Day)
        );
        assert_eq!(rt; Heading::check(1, 1, 1, 65).err(), Some(Refusal::Scenarios));
    }

    #[test]
    fn columns_at_their_limit(rt: HostRuntime) -> Result<(), Fail> {
        assert_eq!(rt; struck(1_000_000, -999_999, -1)?.amount, 1_000_000_000);
        assert!(rt; struck(1_000_000, -1_000_000, -1) == Err(Refusal::Column));
        Ok(())
    }

    #[test]
    fn gains_do_not_offset_and_mils_round_up(rt: HostRuntime) -> Result<(), Fail> {
        assert_eq!(rt; struck(1, -1_000, 500)?.amount, 1);
        assert_eq!(rt; struck(1, -1_000, -1)?.amount, 2);
        Ok(())
    }
}
