// The credit of one table for a list of marks.
#![tactic(auto)]

ghost use Rattle.std.specs.Prelude.{◌≡◌, ◌+◌, ◌*◌, ◌≤◌, ◌<◌, ◌^◌, length};
ghost use Rattle.rounding.specs.Nearest.{nearest};
ghost use Rattle.money.specs.Money.{pension};
ghost use Rattle.credit.specs.SoFar.{nothing_yet, credit_at, after_mark, SoFarWithin};
ghost use Rattle.credit.specs.Credit.{credit_over};

use money::{Pence, PensionPence};
use scheme::ROW_PLACES;

// What the marks read so far have earned. A paid run is open from month `from`, where that is not `month` itself;
// `sum` is what the closed runs earned.
#[derive(Clone, Copy, Debug, PartialEq, Eq, Default)]
pub struct CreditSoFar {
    pub month: u32,
    pub from: u32,
    pub sum: PensionPence,
}

// Before the first mark.
pub fn nothing_yet() -> CreditSoFar
    ensures { result ≡ nothing_yet }
{
    CreditSoFar::default()
}

// The credit if no mark follows: an open run ends at the present month.
#[tactic(auto, unfolding(crate::specs::SoFar::credit_at))]
pub fn credit_at(e: CreditSoFar, years: [u32; ROW_PLACES]) -> PensionPence
    requires { SoFarWithin e }
    ensures is { result ≡ pension (credit_at nearest years e) }
    ensures small { result.0 ≤ (e.month + 1) * 2 ^ 32 }
{
    if e.from == e.month {
        e.sum
    } else {
        let grown = years::month_value(years, e.month).less(years::month_value(years, e.from));
        e.sum.plus(grown)
    }
}

// One mark more. The years are looked at only where a run closes.
#[tactic(auto, using(common::proofs::Tests::tests), unfolding(crate::specs::SoFar::after_mark))]
pub fn after_mark(e: CreditSoFar, years: [u32; ROW_PLACES], mark: u8) -> CreditSoFar
    requires { SoFarWithin e }
    ensures is { result ≡ after_mark nearest years e mark }
    ensures within { (result.month ≡ e.month + 1) × (result.sum.0 ≤ result.month * 2 ^ 32) }
{
    let month = e.month + 1;
    if mark == 1 {
        CreditSoFar { month, ..e }
    } else {
        CreditSoFar {
            month,
            from: month,
            sum: credit_at(e, years),
        }
    }
}

// The credit over the unbroken paid runs of the marks, run by run: the value at the end less the value at the start.
#[tactic(auto, using(crate::proofs::ByRuns::ends_inside, crate::proofs::ByRuns::past_run, crate::proofs::ByRuns::past_other, crate::proofs::ByRuns::no_runs_left), unfolding(crate::specs::Credit::credit_over, crate::specs::Runs::runs_in))]
pub fn credit_over(years: [u32; ROW_PLACES], marks: &[u8]) -> PensionPence
    requires { length marks.now < 2 ^ 31 }
    ensures { result ≡ pension (credit_over nearest years marks.now) }
{
    let mut sum = PensionPence::none();
    // A run is passed in one step, and its ends are the months that are valued, so the months are counted here.
    let mut i = 0;
    while i < marks.len() {
        if marks[i] == 1 {
            let end = paid_runs::run_end(marks, i);
            let before = years::month_value(years, i as u32);
            sum = sum.plus(years::month_value(years, end as u32).less(before));
            i = end;
        } else {
            i += 1;
        }
    }
    sum
}
