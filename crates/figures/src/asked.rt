// What a line asks.
use std::fmt;
use terms::Terms;

// The terms that it is asked on: age, pension age in years and months, option, payer, term, amount.
#[derive(Clone, Copy)]
pub struct On(
    pub u32,
    pub u32,
    pub u32,
    pub u32,
    pub u32,
    pub u32,
    pub u32,
);

// A mark and its number of months.
pub type MarkRun = (u8, usize);

#[derive(Clone, Copy)]
pub enum Asked {
    // existing pension in pence
    CapDecision(u64),
    // the figure to be divided, the divisor
    Nearest(u64, u64),
    // twelfths, the lower figure, the upper one
    Blend(u32, u32, u32),
    // option, pension age, age, term
    Rate(u32, u32, u32, u32),
    // normal pension age, age, pay in pounds, three factors in thousandths, existing pension and limit in pence
    ReductionLimit(u32, u32, u32, [u32; 3], u64, u64),
    // terms, existing pension in pence, last quote number
    Quote(On, u64, u32),
    // terms, runs of marks
    Settle(On, &'static [MarkRun]),
    // terms, runs of marks, entries of the lent list
    Schedule(On, &'static [MarkRun], usize),
    // terms, runs of marks, the age now, the increase in thousandths
    PayOff(On, &'static [MarkRun], u32, u32),
}

impl From<On> for Terms {
    fn from(on: On) -> Terms {
        let On(age, pnpa_years, pnpa_months, option, payer, term, amount) = on;
        Terms {
            age,
            pnpa_years,
            pnpa_months,
            option,
            payer,
            term,
            amount,
        }
    }
}

impl fmt::Display for On {
    fn fmt<W: fmt::Write>(&self, f: &mut fmt::Formatter<W>) -> fmt::Result {
        let On(age, years, months, option, payer, term, amount) = *self;
        write!(f, "{age} {years} {months} {option} {payer} {term} {amount}")
    }
}

// A line shows four runs; one that is not asked is no month of mark 0.
const RUNS_SHOWN: usize = 4;

// Runs of marks, as a line shows them.
#[derive(Clone, Copy)]
pub struct MarkRuns<'a>(pub &'a [MarkRun]);

impl fmt::Display for MarkRuns<'_> {
    fn fmt<W: fmt::Write>(&self, f: &mut fmt::Formatter<W>) -> fmt::Result {
        let MarkRuns(runs) = *self;
        for i in 0..RUNS_SHOWN {
            let (mark, months) = runs.get(i).copied().unwrap_or((0, 0));
            write!(f, " {mark} {months}")?;
        }
        Ok(())
    }
}
