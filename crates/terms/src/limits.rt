// The limits of the rules, each named once. The contracts name the same numbers in specs/Limits.antt.

/// Members are 1 to 64.
pub const LAST_MEMBER: u64 = 64;

/// Segments are 1 derivatives, 2 fixed income, 3 equities, 4 swaps, 5 currencies.
pub const LAST_SEGMENT: u64 = 5;

/// Days are 1 to 1,000,000.
pub const LAST_DAY: u64 = 1_000_000;

/// The scenarios of a sheet, and the columns of a tally.
pub const MOST_SCENARIOS: usize = 64;

/// The assets of a sheet.
pub const MOST_ASSETS: usize = 64;

/// The positions of an account.
pub const MOST_POSITIONS: usize = 64;

/// A price change, up or down, in pesos.
pub const CHANGE_LIMIT: u32 = 1_000_000;

/// A position's quantity, long or short.
pub const QUANTITY_LIMIT: u64 = 10_000_000;

/// A required or posted margin, in pesos.
pub const MARGIN_LIMIT: u64 = 1_000_000_000_000;

/// A column of a tally, in pesos.
pub const COLUMN_LIMIT: u64 = 1_000_000_000_000;

/// One mil in pesos: the book counts in mils.
pub const MIL: u64 = 1_000;

/// The bytes of a day file.
pub const MOST_FILE_BYTES: usize = 60_000;

/// The changes of the largest sheet.
pub const MOST_CHANGES: usize = 4_096;

/// The seat records of a book: five segments for each of 64 members.
pub const ALL_SEATS: usize = 320;

/// The pledge records of a book, one for each member.
pub const ALL_PLEDGES: usize = 64;

/// A seat's minimum, in mils.
pub const MINIMUM_LIMIT: u64 = 1_000_000;

/// An amount that is asked, paid or pledged, in mils.
pub const AMOUNT_LIMIT: u64 = 1_000_000_000;

/// What a segment holds, in mils.
pub const HELD_LIMIT: u64 = 2_000_000_000;

/// A figure, in mils.
pub const FIGURE_LIMIT: u64 = 1_000_000_000;

/// The days in a mean.
pub const MOST_DAYS: u64 = 66;

/// The total of a split, and what its weights add to.
pub const SPLIT_LIMIT: u64 = 2_000_000_000;

/// The least that is asked of a treasury, in mils.
pub const TREASURY_FLOOR: u64 = 700_000;

/// Equity may be short by one part in so many of what is required.
pub const EQUITY_PARTS: u64 = 10;

/// The members of a house: the rows that a call answers by member, and the most means of a segment.
pub const ALL_MEMBERS: usize = 64;

/// The size of a fund, in mils.
pub const FUND_LIMIT: u64 = 1_000_000_000;

/// What is asked of a member is a multiple of this, in mils.
pub const ROUNDING_STEP: u64 = 10_000;
