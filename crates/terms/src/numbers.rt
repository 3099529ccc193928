// Numbers that count from 1, with their bounds in the type, so that whoever has one has nothing to test.

ghost use Rattle.std.specs.Prelude.{◌≡◌, ◌+◌, ◌-◌, ◌<◌, ◌≤◌, MatchOption, false};
ghost use Rattle.std.specs.Iterator.{at_most};
ghost use Rattle.terms.specs.Limits.{within};

use crate::limits::{AMOUNT_LIMIT, LAST_DAY, LAST_MEMBER, LAST_SEGMENT};

/// A number from 1 to `LAST`.
#[derive(Clone, Copy, PartialEq, Eq, Debug)]
pub struct UpTo<const LAST: u64> {
    number: u64,
    ghost known: { (1 ≤ number) × (number ≤ LAST) },
}

/// A member of a house.
pub type Member = UpTo<LAST_MEMBER>;

/// A segment of a house.
pub type Segment = UpTo<LAST_SEGMENT>;

/// A day.
pub type Day = UpTo<LAST_DAY>;

/// An amount that is paid, withdrawn or pledged, in mils.
pub type Amount = UpTo<AMOUNT_LIMIT>;

impl<const LAST: u64> UpTo<LAST> {
    /// The number as one of these; `None` where it is 0 or past the last.
    // No `TryFrom`: one for every `LAST` has one error, where a member, a segment, a day and an amount have a refusal each, and
    // four of them would be twins.
    pub fn numbered(number: u64) -> Option<Self>
        ensures { MatchOption result (within 1 LAST number ≡ false) (λ n. n.number ≡ number) }
    {
        if number < 1 || number > LAST {
            return None;
        }
        Some(UpTo { number })
    }

    pub fn number(&self) -> u64
        ensures is { result ≡ self.now.number }
        ensures known { (1 ≤ result) × (result ≤ LAST) }
    {
        self.number
    }

    /// Where this one stands among them, counted from 0.
    pub fn index(&self) -> usize
        ensures is { result + 1 ≡ self.now.number }
        ensures within { result < LAST }
    {
        self.number as usize - 1
    }

    /// All of them, in order.
    pub fn all() -> Numbers<LAST>
        ensures { result.passed ≡ 0 }
    {
        Numbers { passed: 0 }
    }
}

/// The numbers from 1 to `LAST`, in order.
#[derive(Clone, Copy)]
pub struct Numbers<const LAST: u64> {
    passed: u64,
    ghost few: { passed ≤ LAST },
}

impl<const LAST: u64> Iterator for Numbers<LAST> {
    type Item = UpTo<LAST>;

    ghost next_gives = { λ s r t. MatchOption r ((s.passed ≡ LAST) × (t.passed ≡ LAST)) (λ n. (s.passed < LAST) × (n.number ≡ s.passed + 1) × (t.passed ≡ s.passed + 1)) };

    ghost remaining = { λ s. at_most (LAST - s.passed) };

    fn next(&mut self) -> Option<UpTo<LAST>> {
        if self.passed == LAST {
            return None;
        }
        self.passed += 1;
        Some(UpTo {
            number: self.passed,
        })
    }
}
