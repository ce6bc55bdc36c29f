// A credit for each elapsed month: what a member held after it.
#![tactic(auto)]

ghost use Rattle.std.specs.Prelude.{◌≡◌, ◌*◌, ◌≤◌, ◌<◌, ◌^◌, length, eqb};
ghost use Rattle.common.specs.Choice.{pick};
ghost use Rattle.rounding.specs.Nearest.{nearest};
ghost use Rattle.years.specs.Years.{year_credits};
ghost use Rattle.years.specs.Elected.{purchase_in};
ghost use Rattle.schedule.specs.YearRows.{upper_years};
ghost use Rattle.examination.specs.Refusal.{settle_refusal};
ghost use Rattle.schedule.specs.Schedule.{filled_of, numbers_of_schedule, schedule_of};

use credit::CreditSoFar;
use election::Election;
use marks::{Kind, Reading, Status};
use money::{Pence, PensionPence};
use refusals::{Refusal, Refused};
use scheme::ROW_PLACES;
use terms::Terms;

// The marks read so far, and what their runs earned in each table; nothing in the upper where there is none.
#[derive(Clone, Copy)]
struct Walk {
    reading: Reading,
    lower: CreditSoFar,
    upper: CreditSoFar,
    ghost lower_small: { lower.sum.0 ≤ lower.month * 2 ^ 32 },
    ghost upper_small: { upper.sum.0 ≤ upper.month * 2 ^ 32 },
    ghost upper_behind: { upper.month ≤ lower.month },
}

// A monthly election, with the whole-year credits of its tables: the upper only with odd months.
#[derive(Clone, Copy)]
struct YearRows {
    election: Election,
    lower: [u32; ROW_PLACES],
    upper: Option<[u32; ROW_PLACES]>,
    ghost monthly: { 0 < election.terms.term },
    ghost lower_is: { lower ≡ year_credits nearest (purchase_in election.terms election.terms.pnpa_years) },
    ghost upper_is: { upper ≡ upper_years election.terms },
}

// The upper table's whole-year credits, where the pension age has odd months. `YearRows` keeps what is asked here.
#[tactic(auto, using(crate::proofs::Laws::upper_table))]
fn upper_years(e: Election) -> Option<[u32; ROW_PLACES]>
    requires { 0 < e.terms.term }
    ensures { result ≡ upper_years e.terms }
{
    let rate = e.rates.upper?;
    Some(years::year_credits(e.terms, e.terms.pnpa_years + 1, rate))
}

impl Walk {
    ghost use Rattle.schedule.specs.Walk.{as_walked, walk_begun};

    // Before the first mark.
    fn begun() -> Walk
        ensures { as_walked result ≡ walk_begun }
    {
        Walk {
            reading: marks::start(Kind::Monthly, scheme::OPEN_MONTHS),
            lower: credit::nothing_yet(),
            upper: credit::nothing_yet(),
        }
    }
}

impl YearRows {
    ghost use Rattle.money.specs.Money.{pension};
    ghost use Rattle.examination.specs.Refusal.{settle_refusal};
    ghost use Rattle.schedule.specs.Schedule.{filled_of};
    ghost use Rattle.schedule.specs.Walk.{as_walked, step_walk, credit_held, held_of, Holdable};

    // Those of a monthly election.
    #[tactic(auto, using(settlement::proofs::Purchases::lower_rate_asked))]
    fn of(e: Election) -> YearRows
        requires { 0 < e.terms.term }
        ensures { result.election.terms ≡ e.terms }
    {
        let t = e.terms;
        YearRows {
            election: e,
            lower: years::year_credits(t, t.pnpa_years, e.rates.lower),
            upper: upper_years(e),
        }
    }

    // One mark more, of marks that are known to be lawful.
    fn walk_on(&self, w: Walk, mark: u8) -> Walk
        requires { w.lower.month < 2 ^ 31 }
        ensures { as_walked result ≡ step_walk self.now (as_walked w) mark }
    {
        Walk {
            reading: marks::count_mark(w.reading, mark),
            lower: credit::after_mark(w.lower, self.lower, mark),
            upper: match self.upper {
                Some(years) => credit::after_mark(w.upper, years, mark),
                None => w.upper,
            },
        }
    }

    // What the runs of the marks walked through earned: each table's credit whole, then combined.
    fn credit_held(&self, w: Walk) -> PensionPence
        requires { Holdable self.now (as_walked w) }
        ensures { result ≡ pension (credit_held self.now (as_walked w)) }
    {
        let credit = credit::credit_at(w.lower, self.lower);
        match self.upper {
            Some(years) => credit.combine(
                credit::credit_at(w.upper, years),
                self.election.terms.pnpa_months,
            ),
            None => credit,
        }
    }

    // What is held after them: nothing when refunded.
    #[tactic(auto, using(common::proofs::Tests::tests), unfolding(crate::specs::Walk::held_of))]
    fn held(&self, w: Walk) -> PensionPence
        requires { Holdable self.now (as_walked w) }
        ensures { result ≡ pension (held_of self.now (as_walked w)) }
    {
        match marks::status(self.election.terms.term, w.reading) {
            Status::Refunded => PensionPence::none(),
            _ => self.credit_held(w),
        }
    }

    // An entry for each mark. Each mark is walked through once.
    fn fill(&self, marks: &[u8], out: &mut [u32])
        requires none_refused { (settle_refusal self.now.election.terms marks.now).refusal ≡ 0 }
        requires marks_in_bounds { length marks.now ≤ length out.old }
        ensures { out.new ≡ filled_of self.now.election.terms marks.now out.old }
    {
        let mut w = Walk::begun();
        for (i, mark) in marks.iter().enumerate() {
            w = self.walk_on(w, *mark);
            out[i] = self.held(w).0 as u32;
        }
    }
}

// What is held of a lump sum after a mark that is lawful there: its amount, or nothing once the member has left.
#[tactic(auto, using(common::proofs::Tests::tests))]
fn lump_sum_held(amount: u32, mark: u8) -> u32
    ensures { result ≡ pick (eqb mark 2) 0 amount }
{
    if mark == 2 {
        return 0;
    }
    amount
}

// An entry for each mark of a lump sum.
fn fill_lump_sum(t: Terms, marks: &[u8], out: &mut [u32])
    requires lump_sum { t.term ≡ 0 }
    requires none_refused { (settle_refusal t marks.now).refusal ≡ 0 }
    requires marks_in_bounds { length marks.now ≤ length out.old }
    ensures { out.new ≡ filled_of t marks.now out.old }
{
    let amount = PensionPence::of_pounds(t.amount).0 as u32;
    for (i, mark) in marks.iter().enumerate() {
        out[i] = lump_sum_held(amount, *mark);
    }
}

// Writes the credit after each mark to the first entries of the lent list. A refusal writes nothing.
pub fn schedule(t: Terms, marks: &[u8], out: &mut [u32]) -> Result<(), Refused>
    ensures { numbers_of_schedule result out.new ≡ schedule_of t marks.now out.old }
{
    let examined = examination::examine(t, marks)?;
    if out.len() < marks.len() {
        return Err(Refusal::WrongLength.into());
    }
    if t.term == 0 {
        fill_lump_sum(t, marks, out);
    } else {
        YearRows::of(examined.election).fill(marks, out);
    }
    Ok(())
}
