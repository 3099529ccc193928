// Plays a journal of the fund book from standard input, and prints an answer for each entry.
#![tactic(auto)]

use dayfile::read;
use dayreport::report;
use daytext::split;
use figures::{Figure, Numbers, Position};
use fund::{Unbooked, admit, book, depart, make, pay, withdraw};
use journal::{Entry, day_file, entry_of, is_day_file, lines_in};
use std::fmt::Display;
use std::io::{Read, Write};
use std::{fmt, io};
use tables::{Pledges, Seat};
use terms::Refusal;
use terms::limits::{ALL_PLEDGES, ALL_SEATS, MOST_CHANGES, MOST_POSITIONS};

// Prints the answer to a call: what the call gives, or the number of its refusal.
fn tell<T: Display + Drop>(
    rt: &HostRuntime,
    call: &str,
    answer: Result<T, Refusal>,
) -> io::Result<()> {
    match answer {
        Ok(given) => println!(rt; "{call}={given}"),
        Err(refusal) => println!(rt; "{call}=refused,{}", refusal.number()),
    }
}

// What a call gives that only writes.
#[derive(Drop)]
struct Done;

impl Display for Done {
    fn fmt<W: fmt::Write>(&self, f: &mut fmt::Formatter<W>) -> fmt::Result {
        write!(f, "ok")
    }
}

// What booking gives: the figure's numbers.
#[derive(Drop)]
struct Booked(Numbers);

impl Display for Booked {
    fn fmt<W: fmt::Write>(&self, f: &mut fmt::Formatter<W>) -> fmt::Result {
        let Numbers {
            member,
            segment,
            day,
            amount,
        } = self.0;
        write!(f, "{member},{segment},{day},{amount}")
    }
}

// A figure that was not booked is set aside.
fn refused(unbooked: Unbooked) -> Refusal {
    let Unbooked { refusal, figure } = unbooked;
    let _ = figure.set_aside();
    refusal
}

// The two tables of the book that is played on, and the runtime that prints.
#[derive(Drop)]
struct Room<'a> {
    rt: &'a HostRuntime,
    seats: &'a mut [Seat],
    pledges: &'a [Pledges],
}

impl Room<'_> {
    fn play_entry(&mut self, entry: Entry) -> io::Result<()> {
        match entry {
            Entry::Admit {
                member,
                segment,
                class,
                minimum,
                paid,
            } => {
                let answer = admit(
                    self.seats,
                    self.pledges,
                    member,
                    segment,
                    class,
                    minimum,
                    paid,
                );
                tell(self.rt, "admit", answer.map(|()| Done))
            }
            Entry::Pay {
                member,
                segment,
                amount,
            } => {
                let answer = pay(self.seats, self.pledges, member, segment, amount);
                tell(self.rt, "pay", answer.map(|()| Done))
            }
            Entry::Withdraw {
                member,
                segment,
                amount,
            } => {
                let answer = withdraw(self.seats, self.pledges, member, segment, amount);
                tell(self.rt, "withdraw", answer.map(|()| Done))
            }
            Entry::Depart { member, segment } => {
                let answer = depart(self.seats, self.pledges, member, segment);
                tell(self.rt, "depart", answer)
            }
        }
    }

    fn book(&mut self, figure: Figure) -> Result<Booked, Refusal> {
        let numbers = figure.read();
        book(self.seats, self.pledges, figure).map_err(refused)?;
        Ok(Booked(numbers))
    }

    // Books the figure of a day file, or tells its fault.
    fn play_day(&mut self, file: &[u8]) -> io::Result<()> {
        let mut changes = [0; MOST_CHANGES];
        let mut positions = [Position::default(); MOST_POSITIONS];
        match read(file, &mut changes, &mut positions) {
            Ok(figure) => {
                let answer = self.book(figure);
                tell(self.rt, "book", answer)
            }
            Err(fault) => self.rt.stdout().write_all(report(Err(fault)).as_bytes()),
        }
    }

    fn play_line(&mut self, line: &[u8], number: usize) -> io::Result<()> {
        match entry_of(line) {
            Some(entry) => self.play_entry(entry),
            None => println!(self.rt; "unread={number}"),
        }
    }

    // Plays the whole journal; lines are counted from 1, those of day files too.
    fn play(&mut self, journal: &[u8]) -> io::Result<()> {
        let mut rest = journal;
        let mut ended = 0;
        while !rest.is_empty() {
            if is_day_file(rest) {
                let (file, others) = rest.split_at(day_file(rest));
                self.play_day(file)?;
                ended += lines_in(file);
                rest = others;
            } else {
                let Some((line, others)) = split(rest, b'\n') else {
                    return println!(self.rt; "unread={}", ended + 1);
                };
                ended += 1;
                self.play_line(line, ended)?;
                rest = others;
            }
        }
        Ok(())
    }
}

fn main(rt: HostRuntime) -> io::Result<()> {
    let mut journal = Vec::new(rt.alloc());
    rt.stdin().read_to_end(&mut journal)?;
    let mut seats = [Seat::default(); ALL_SEATS];
    let mut pledges = [Pledges::default(); ALL_PLEDGES];
    make(&mut seats, &mut pledges).unwrap();
    let mut room = Room {
        rt: &rt,
        seats: &mut seats,
        pledges: &pledges,
    };
    room.play(journal.as_slice())
}

#[cfg(test)]
mod tests {
    use super::*;

    // A payment of 1 by member 1 in segment 1, whose seat is this one: the refusal's number where it is not accepted.
    fn paid_by(seat: Seat, pledged: u64) -> Result<(), u8> {
        let mut seats = [Seat::default(); ALL_SEATS];
        let mut pledges = [Pledges::default(); ALL_PLEDGES];
        seats[0] = seat;
        pledges[63].individual = pledged;
        pay(&mut seats, &pledges, 1, 1, 1).map_err(Refusal::number)
    }

    #[test]
    fn tables_that_are_no_book(rt: HostRuntime) {
        let good = Seat {
            class: 2,
            minimum: 1,
            asked: 1,
            ..Seat::default()
        };
        assert_eq!(rt; paid_by(good, 1_000_000_000), Ok(()));
        assert_eq!(rt; paid_by(good, 1_000_000_001), Err(10));
        assert_eq!(rt; paid_by(Seat { class: 5, ..good }, 0), Err(10));
        assert_eq!(rt;
            paid_by(
                Seat {
                    held: u64::MAX,
                    ..good
                },
                0,
            ),
            Err(10)
        );
        assert_eq!(rt;
            paid_by(
                Seat {
                    days: u64::MAX,
                    ..good
                },
                0,
            ),
            Err(10)
        );
        assert_eq!(rt;
            paid_by(
                Seat {
                    last_day: 1,
                    ..Seat::default()
                },
                0,
            ),
            Err(10)
        );
    }

    #[test]
    fn making_wants_its_lengths(rt: HostRuntime) {
        let mut seats = [Seat::default(); 319];
        let mut pledges = [Pledges::default(); ALL_PLEDGES];
        assert!(rt; make(&mut seats, &mut pledges).is_err());
    }
}
