// The numbers of the scheme that the code goes by, as specs/Scheme.antt has them. First age and margin of the print rule are in `lookup`, in
// the ages and terms that it takes.
#![tactic(auto)]

// Pounds of pension a year that a rate is for: pension is sold in such steps.
pub const STEP: u32 = 250;

// The most pounds of pension a year that may be held.
pub const CAP: u32 = 6500;

// The longest term, in years, and the most marks that it has.
pub const LONGEST_TERM: u32 = 20;

pub const MOST_MARKS: usize = 240;

// The places of a row of whole-year credits: the start, and each year of the longest term.
pub const ROW_PLACES: usize = 21;

// How many missed months in a row leave a contract open: a payment is still taken after them.
pub const OPEN_MONTHS: usize = 11;

// The months up to the last paid one from which on a contract that has stopped is ceased and not refunded.
pub const CEASED_FROM: usize = 12;

// The most marks of a lump sum, those of the first year: it goes back to a member who leaves within it.
pub const LUMP_SUM_MARKS: usize = 12;
