// A sizing rule that a house brings itself, and strikes by it: nothing of the strike is proved again.
#![tactic(auto)]

mod rule;

use rule::MarkAll;
use std::io;
use strike::{Row, strike};
use tables::{Pledges, Seat};
use terms::Refusal;
use terms::limits::{ALL_MEMBERS, ALL_PLEDGES, ALL_SEATS};

// A general member's seat that has paid its minimum and has one figure.
fn general(minimum: u64, figure: u64) -> Seat {
    Seat {
        class: 1,
        minimum,
        held: minimum,
        asked: minimum,
        sum: figure,
        days: 1,
        last_day: 1,
        last_figure: figure,
    }
}

// Prints a strike of the first segment by the house's own rule.
fn main(rt: HostRuntime) -> io::Result<()> {
    let mut seats = [Seat::default(); ALL_SEATS];
    let pledges = [Pledges::default(); ALL_PLEDGES];
    let mut rows = [Row::default(); ALL_MEMBERS];
    seats[0] = general(300_000, 4_000_000);
    seats[5] = general(300_000, 1_000_000);
    seats[10] = general(300_000, 100_000);
    match strike(&mut seats, &pledges, 1, &MarkAll, &mut rows) {
        Ok(fund) => println!(&rt; "fund={fund}")?,
        Err(refusal) => {
            let number = refusal.number();
            println!(&rt; "refused={number}")?;
        }
    }
    for (i, row) in rows.iter().enumerate() {
        if row.ask > 0 {
            println!(&rt; "ask={},{},{}", i + 1, row.ask, row.marked as u8)?;
        }
    }
    Ok(())
}

#[cfg(test)]
mod tests {
    use super::*;
    use sizing::CoverTwo;
    use tables::place_of;
    use terms::{Member, Segment};

    // Every member in this segment, with a minimum of 1 and a figure of 0.
    fn seat_everyone(seats: &mut [Seat; ALL_SEATS], segment: Segment) {
        for member in Member::all() {
            seats[place_of(member, segment)] = general(1, 0);
        }
    }

    // The fund, or the refusal's number.
    fn told(answer: Result<u64, Refusal>) -> Result<u64, u8> {
        answer.map_err(|refusal| refusal.number())
    }

    #[test]
    fn sixty_four_members_with_means_of_0(rt: HostRuntime) {
        let mut seats = [Seat::default(); ALL_SEATS];
        let mut rows = [Row::default(); ALL_MEMBERS];
        seat_everyone(&mut seats, Segment::numbered(1).unwrap());
        let answer = strike(
            &mut seats,
            &[Pledges::default(); ALL_PLEDGES],
            1,
            &MarkAll,
            &mut rows,
        );
        assert_eq!(rt; told(answer), Ok(0));
        assert_eq!(rt;
            rows,
            [Row {
                ask: 10_000,
                marked: true,
            }; ALL_MEMBERS]
        );
        assert_eq!(rt; seats[315].asked, 10_000);
        assert_eq!(rt; seats[315].days, 0);
    }

    // Two members with these figures, under cover-two.
    fn two_members(first: u64, second: u64) -> Result<u64, u8> {
        let mut seats = [Seat::default(); ALL_SEATS];
        let mut rows = [Row::default(); ALL_MEMBERS];
        seats[0] = general(1, first);
        seats[5] = general(1, second);
        told(strike(
            &mut seats,
            &[Pledges::default(); ALL_PLEDGES],
            1,
            &CoverTwo,
            &mut rows,
        ))
    }

    #[test]
    fn the_size_at_its_limit(rt: HostRuntime) {
        assert_eq!(rt; two_members(500_000_000, 500_000_000), Ok(1_000_000_000));
        assert_eq!(rt; two_members(500_000_001, 500_000_000), Err(23));
        assert_eq!(rt; two_members(1_000_000_000, 1_000_000_000), Err(23));
    }

    #[test]
    fn a_quota_that_equals_its_minimum(rt: HostRuntime) {
        let mut seats = [Seat::default(); ALL_SEATS];
        let mut rows = [Row::default(); ALL_MEMBERS];
        seats[4] = general(15_000, 15_000);
        seats[9] = Seat {
            class: 3,
            sum: 70,
            days: 7,
            last_day: 9,
            last_figure: 10,
            ..Seat::default()
        };
        let answer = strike(
            &mut seats,
            &[Pledges::default(); ALL_PLEDGES],
            5,
            &MarkAll,
            &mut rows,
        );
        assert_eq!(rt; told(answer), Ok(15_000));
        assert_eq!(rt; seats[4].asked, 20_000);
        assert_eq!(rt;
            seats[9],
            Seat {
                class: 3,
                last_day: 9,
                last_figure: 10,
                ..Seat::default()
            }
        );
        assert_eq!(rt; rows[1], Row::default());
    }

    #[test]
    fn rows_of_another_number(rt: HostRuntime) {
        let mut seats = [Seat::default(); ALL_SEATS];
        let mut rows = [Row::default(); 63];
        seats[0] = general(1, 1);
        let answer = strike(
            &mut seats,
            &[Pledges::default(); ALL_PLEDGES],
            1,
            &MarkAll,
            &mut rows,
        );
        assert_eq!(rt; told(answer), Err(27));
        assert_eq!(rt; seats[0], general(1, 1));
    }
}
