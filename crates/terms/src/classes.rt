// Classes of members, and the duties of each.

ghost use Rattle.terms.specs.Classes.{class_of, owed, owes};
ghost use Rattle.std.specs.Prelude.{◌≡◌, ok_or};
ghost use Rattle.terms.specs.declared.refusals.Refusal.TheVariants.{WrongClass};

use crate::refusals::Refusal;

/// The class in which a member is admitted.
#[derive(Clone, Copy, PartialEq, Eq, Debug)]
pub enum Class {
    General,
    Individual,
    Treasury,
    CentralBank,
}

/// What a class may owe.
#[derive(Clone, Copy, PartialEq, Eq, Debug)]
pub enum Duty {
    IndividualAmounts,
    StressAmount,
    FundContribution,
    TreasuryAmount,
}

/// Who owes what: a row for each class, a column for each duty, in the order of the two enums.
const DUTIES: [[bool; 4]; 4] = [
    [true, true, true, false],
    [true, true, true, false],
    [true, false, false, true],
    [false, false, false, false],
];

/// The class of this number: 1 general, 2 individual, 3 treasury, 4 central bank.
impl TryFrom<u64> for Class {
    type Error = Refusal;

    ghost try_from_gives = { λ n r. r ≡ ok_or (class_of n) WrongClass };

    fn try_from(number: u64) -> Result<Class, Refusal> {
        match number {
            1 => Ok(Class::General),
            2 => Ok(Class::Individual),
            3 => Ok(Class::Treasury),
            4 => Ok(Class::CentralBank),
            _ => Err(Refusal::WrongClass),
        }
    }
}

impl Class {
    /// Whether a member of the class of this number owes the duty; of a number that is no class's, none is owed.
    pub fn number_owes(number: u64, duty: Duty) -> bool
        ensures { result ≡ owes number duty }
    {
        Class::try_from(number).is_ok_and(|class| class.owes(duty))
    }

    /// Whether a member of this class owes the duty.
    pub fn owes(self, duty: Duty) -> bool
        ensures { result ≡ owed self duty }
    {
        DUTIES[self as usize][duty as usize]
    }
}
