// A tally that takes accounts and is struck, and the figure that comes of it.

ghost use Rattle.figures.specs.Accounts.{Added, add_tests, columns_after};
ghost use Rattle.figures.specs.Strikes.{Struck, largest_of, numbers_at, numbers_of};
ghost use Rattle.terms.specs.Refusing.{first_refusal, refusal_of};
ghost use Rattle.std.specs.Prelude.{◌≡◌};

use crate::checks::Sheet;
use crate::kinds::{Account, Closing, Figure, Numbers, Position, Tally};
use terms::limits::MIL;
use terms::{Member, Refusal, Segment};

impl Tally {
    /// Adds an account: where its loss in a scenario exceeds its offset, the excess is added to that column.
    ///
    /// Refuses, each over the whole input before the next: a sheet that has no whole number of assets from 1 to 64 or
    /// a change out of range; more than 64 positions, an unknown asset, or a quantity that is 0 or out of range; a
    /// margin above its limit; a column that would pass its limit. A refused account changes nothing.
    pub fn add(
        &mut self,
        sheet: &[i32],
        account: Account,
        positions: &[Position],
    ) -> Result<(), Refusal>
        ensures refusal { refusal_of result ≡ first_refusal (add_tests self.old.scenarios self.old.columns sheet.now account positions.now) }
        ensures after { Added self.old self.new (columns_after result self.old.scenarios self.old.columns sheet.now account positions.now) }
    {
        let sheet = Sheet::read(self.scenarios, sheet)?;
        let holding = sheet.holding(positions)?;
        let offset = account.offset()?;
        let mut columns = self.columns;
        holding.raise(&mut columns, offset)?;
        self.columns = columns;
        Ok(())
    }

    /// Strikes the tally into its figure: the largest column in mils, rounded up. It never refuses.
    pub fn strike(self) -> Figure
        ensures { Struck self result }
    {
        let Tally {
            closing,
            columns,
            ..
        } = self;
        let most = largest(&columns);
        Figure {
            closing,
            amount: most.div_ceil(MIL),
        }
    }
}

fn largest(columns: &[u64]) -> u64
    ensures { result ≡ largest_of columns.now }
{
    columns.iter().fold(0, |most, column| most.max(*column))
}

impl Closing {
    // What a figure of this closing says.
    fn numbers(&self, amount: u64) -> Numbers
        ensures { result ≡ numbers_at self.now amount }
    {
        Numbers {
            member: self.member.number(),
            segment: self.segment.number(),
            day: self.day.number(),
            amount,
        }
    }
}

impl Figure {
    /// What the figure says; it is still to be spent.
    pub fn read(&self) -> Numbers
        ensures { result ≡ numbers_of self.now }
    {
        self.closing.numbers(self.amount)
    }

    /// The member whose figure it is.
    pub fn member(&self) -> Member
        ensures { result ≡ self.now.closing.member }
    {
        self.closing.member
    }

    /// The segment that it was struck in.
    pub fn segment(&self) -> Segment
        ensures { result ≡ self.now.closing.segment }
    {
        self.closing.segment
    }

    /// Sets the figure aside: it is used up, and what it said is answered.
    pub fn set_aside(self) -> Numbers
        ensures { result ≡ numbers_of self }
    {
        let Figure { closing, amount } = self;
        closing.numbers(amount)
    }
}
