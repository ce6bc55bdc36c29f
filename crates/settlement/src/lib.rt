// What a member holds: contribution, status, credit and refund of an election for the marks of its elapsed months.
#![tactic(auto)]

ghost use Rattle.std.specs.Prelude.{◌≡◌, length, ◌*◌, ◌≤◌, ◌<◌, ◌^◌, eqb, ltb};
ghost use Rattle.common.specs.Choice.{pick};
ghost use Rattle.scheme.specs.Scheme.{most_marks};
ghost use Rattle.refusals.specs.Numbers.{is_refused};
ghost use Rattle.money.specs.Money.{pension};
ghost use Rattle.money.specs.Contribution.{contribution};
ghost use Rattle.marks.specs.Numbers.{status_number};
ghost use Rattle.examination.specs.Examine.{Monthly};
ghost use Rattle.settlement.specs.Credit.{credit_of};
ghost use Rattle.settlement.specs.Settle.{credit_at_status, settle_of, numbers_of_settlement};
ghost use Rattle.settlement.specs.Demand.{Demand3};
ghost use Rattle.settlement.specs.Marks.{MarksAnswered};
ghost use Rattle.settlement.specs.LumpSum.{LumpSumAnswered};
ghost use Rattle.settlement.specs.Six.{as_settle_numbers};

use election::{Election, TableRates};
use marks::Status;
use money::{ContributionPence, Pence, PensionPence};
use refusals::Refused;
use terms::Terms;

// What the member holds.
#[derive(Clone, Copy, Debug, PartialEq, Eq)]
pub struct Settlement {
    pub contribution: ContributionPence,
    pub status: Status,
    pub credit: PensionPence,
    pub refund: ContributionPence,
}

// What the paid runs of a monthly contract earned: each table's credit whole, then combined. A type for monthly elections would be made
// where the status says so already, for this one call.
#[tactic(auto, using(crate::proofs::Purchases::lower_rate_asked, crate::proofs::Purchases::upper_rate_asked, crate::proofs::Purchases::no_upper_rate_asked, crate::proofs::Purchases::credit_fits, crate::proofs::Purchases::credit_combined, rounding::proofs::Laws::combine_none), unfolding(credit::specs::Credit::credit_in))]
fn runs_credit(e: Election, marks: &[u8]) -> PensionPence
    requires monthly { 0 < e.terms.term }
    requires marks_len_bound { length marks.now ≤ most_marks }
    ensures { result ≡ pension (credit_of e.terms marks.now) }
{
    let t = e.terms;
    let years = years::year_credits(t, t.pnpa_years, e.rates.lower);
    let only = credit::credit_over(years, marks);
    match e.rates.upper {
        None => only,
        Some(rate) => {
            let upper_years = years::year_credits(t, t.pnpa_years + 1, rate);
            let other = credit::credit_over(upper_years, marks);
            only.combine(other, t.pnpa_months)
        }
    }
}

// The credit at the number of a status: nothing when refunded, a lump sum in full, whatever the terms; at any other what the paid runs earned.
#[inline]
#[tactic(auto, using(common::proofs::Tests::tests), unfolding(crate::specs::Settle::credit_at_status))]
pub fn credit_at_number(t: Terms, rates: TableRates, status: u32, marks: &[u8]) -> PensionPence
    requires monthly { (status ≡ 5 → ⊥) → (status ≡ 6 → ⊥) → Monthly t rates }
    requires marks_len_bound { length marks.now ≤ most_marks }
    ensures { result ≡ pension (credit_at_status t marks.now status) }
{
    if status == Status::Refunded.number() {
        PensionPence::none()
    } else if status == Status::LumpSum.number() {
        PensionPence::of_pounds(t.amount)
    } else {
        runs_credit(Election { terms: t, rates }, marks)
    }
}

// The same of an election.
#[inline]
pub fn credit_at_status(e: Election, status: Status, marks: &[u8]) -> PensionPence
    requires monthly { (status_number status ≡ 5 → ⊥) → (status_number status ≡ 6 → ⊥) → 0 < e.terms.term }
    requires marks_len_bound { length marks.now ≤ most_marks }
    ensures { result ≡ pension (credit_at_status e.terms marks.now (status_number status)) }
{
    credit_at_number(e.terms, e.rates, status.number(), marks)
}

// The refund at a status: the contributions that were paid when refunded.
fn refund_at_status(own: ContributionPence, status: Status, payments: usize) -> ContributionPence
    requires { (own.0 < 2 ^ 32) × (payments ≤ most_marks) }
    ensures { result ≡ contribution (pick (eqb (status_number status) 5) (own.0 * payments) 0) }
{
    match status {
        Status::Refunded => own.times(payments as u32),
        _ => ContributionPence::none(),
    }
}

// Contribution, status, credit and refund; or the first refusal and its place.
#[tactic(auto, using(common::proofs::Tests::tests, refusals::proofs::Numbers::refusal_positive, examination::proofs::Laws::settled_few, examination::proofs::Unrefused::examined_monthly, crate::proofs::Demand::demand_3, crate::proofs::Marks::same_marks_answered, crate::proofs::LumpSum::same_lump_sum_answered), unfolding(crate::specs::Settle::settle_of, crate::specs::Settle::refund_at_status))]
pub fn settle(t: Terms, marks: &[u8]) -> Result<Settlement, Refused>
    ensures is { numbers_of_settlement result ≡ settle_of t marks.now }
    ensures distance { Demand3 t marks.now (numbers_of_settlement result) }
    ensures marks { MarksAnswered t marks.now (numbers_of_settlement result) }
    ensures lump_sum { LumpSumAnswered t marks.now (numbers_of_settlement result) }
    ensures refused { is_refused result ≡ ltb 0 (settle_of t marks.now).refusal }
{
    let e = examination::examine(t, marks)?;
    let contribution = e.election.contribution();
    Ok(Settlement {
        contribution,
        status: e.status,
        credit: credit_at_status(e.election, e.status, marks),
        refund: refund_at_status(contribution, e.status, e.payments),
    })
}

// A settlement as six numbers, as a host in C and the listing take them: refusal and status are numbers, and refusal 0 is none.
#[derive(Clone, Copy, Debug, PartialEq, Eq)]
pub struct SixNumbers {
    pub refusal: u64,
    pub place: u64,
    pub contribution: u64,
    pub status: u64,
    pub credit: u64,
    pub refund: u64,
}

impl From<Result<Settlement, Refused>> for SixNumbers {
    ghost from_gives = { λ answer six. as_settle_numbers six ≡ numbers_of_settlement answer };

    fn from(answer: Result<Settlement, Refused>) -> SixNumbers {
        match answer {
            Err(e) => SixNumbers {
                refusal: e.refusal.number() as u64,
                place: e.place as u64,
                contribution: 0,
                status: 0,
                credit: 0,
                refund: 0,
            },
            Ok(s) => SixNumbers {
                refusal: 0,
                place: 0,
                contribution: s.contribution.0,
                status: s.status.number() as u64,
                credit: s.credit.0,
                refund: s.refund.0,
            },
        }
    }
}
