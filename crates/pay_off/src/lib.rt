// Paying off the rest: what a contract lacks of its amount, bought as a lump sum at the age that the member has now.
#![tactic(auto)]

ghost use Rattle.std.specs.Prelude.{◌≡◌, IfOk, ◌+◌, ◌≤◌, ◌<◌, ◌^◌, ltb};
ghost use Rattle.common.specs.Calendar.{months_in_year};
ghost use Rattle.refusals.specs.Numbers.{is_refused};
ghost use Rattle.refusals.specs.Parts.{refusal_in};
ghost use Rattle.money.specs.Contribution.{contribution};
ghost use Rattle.marks.specs.Numbers.{status_number};
ghost use Rattle.pay_off.specs.Cost.{cost_of};
ghost use Rattle.pay_off.specs.PayOff.{most_increase, nothing_to_pay_off, wrong_increase, contract_refusal, priced_pay_off, pay_off_of, priced_numbers, numbers_of_pay_off};
ghost use Rattle.pay_off.specs.LumpSumsNow.{SumsLookedUp, upper_sum_or_none};
ghost use Rattle.pay_off.specs.Clauses.{PayOffPriced, PayOffRefusals};

use election::{Election, TableRates};
use marks::Status;
use money::{ContributionPence, PensionPence};
use refusals::{Refusal, Refused};
use terms::Terms;

// What remains, the same increased, and what that costs.
#[derive(Clone, Copy, Debug, PartialEq, Eq)]
pub struct PayOff {
    pub remaining: PensionPence,
    pub increased: PensionPence,
    pub cost: ContributionPence,
}

// The increases that are taken, in thousandths.
const LEAST_INCREASE: u32 = 1000;

const MOST_INCREASE: u32 = 9999;

// The cost of an increased pension at the rate between those of two pension ages, which is not rounded.
#[tactic(auto, unfolding(crate::specs::Cost::cost_of))]
pub fn cost(increased: PensionPence, lower: u32, upper: u32, months: u32) -> ContributionPence
    requires { (increased.0 < 2 ^ 28) × (months < months_in_year) }
    ensures { result ≡ contribution (cost_of increased.0 lower upper months) }
{
    let unit = PensionPence::of_pounds(scheme::STEP);
    increased.costs(unit, rounding::twelfths(months, lower, upper))
}

#[tactic(auto, unfolding(crate::specs::PayOff::nothing_to_pay_off))]
fn nothing_to_pay_off(status: Status) -> bool
    ensures { result ≡ nothing_to_pay_off (status_number status) }
{
    matches!(
        status,
        Status::NoMarksYet | Status::Refunded | Status::LumpSum
    )
}

#[tactic(auto, using(common::proofs::Tests::tests), unfolding(crate::specs::PayOff::wrong_increase))]
fn wrong_increase(increase: u32) -> bool
    ensures { result ≡ wrong_increase increase }
{
    increase < LEAST_INCREASE || MOST_INCREASE < increase
}

// The lump sums at the age now, as an election by lump sum looks them up, that a contract which Settle accepts is paid off at; or the
// first of 16, 17 and 5. They are not asked of `rates` here: with a second caller its lookup would no longer be inlined into the first
// (docs/SPEED.md).
#[tactic(auto, using(crate::proofs::Contract::refuses_status, crate::proofs::Contract::refuses_increase, crate::proofs::Contract::refuses_sums, crate::proofs::Contract::lump_refusal, crate::proofs::Contract::sums_are))]
fn lump_sums_now(
    t: Terms,
    status: Status,
    age_now: u32,
    increase: u32,
) -> Result<TableRates, Refusal>
    ensures refusal { refusal_in result ≡ contract_refusal t (status_number status) age_now increase }
    ensures sums { IfOk result (λ sums. SumsLookedUp t age_now sums) }
{
    if nothing_to_pay_off(status) {
        return Err(Refusal::NothingToPayOff);
    }
    if wrong_increase(increase) {
        return Err(Refusal::WrongIncrease);
    }
    TableRates::of(Terms {
        age: age_now,
        term: 0,
        ..t
    })
}

// What a contract lacks beside its credit, and what that costs. A whole pension age weighs no upper lump sum.
#[tactic(auto, using(crate::proofs::Costs::increased_most), unfolding(crate::specs::Cost::increased_by))]
fn priced(e: Election, credit: PensionPence, sums: TableRates, increase: u32) -> PayOff
    requires { increase ≤ most_increase }
    ensures { priced_numbers result ≡ priced_pay_off e.terms credit.0 sums.lower (upper_sum_or_none sums) increase }
{
    let whole = PensionPence::of_pounds(e.terms.amount);
    let remaining = whole.less(credit);
    let increased = remaining.increased(increase);
    let upper = sums.upper.unwrap_or(0);
    let cost = cost(increased, sums.lower, upper, e.terms.pnpa_months);
    PayOff {
        remaining,
        increased,
        cost,
    }
}

// The remaining pension, the same increased by so many thousandths, and its cost; or the first refusal and its place. The age now is
// not compared with the age at the election. Settle's refusals and credit come from the two functions that `settle` asks for them: a
// second place that calls `settle` would cost its host call more (docs/SPEED.md).
#[tactic(auto, using(common::proofs::Tests::tests, refusals::proofs::Numbers::refusal_positive, examination::proofs::Laws::settled_few, examination::proofs::Unrefused::examined_monthly, crate::proofs::Laws::settle_refuses, crate::proofs::Laws::contract_decides, crate::proofs::Settled::same_refusal, crate::proofs::Settled::same_place, crate::proofs::Settled::settles, crate::proofs::Settled::same_status, crate::proofs::Settled::same_credit, crate::proofs::Contract::contract_refused, crate::proofs::Contract::contract_priced, crate::proofs::Contract::price_is, crate::proofs::Contract::contract_passes, crate::proofs::Clauses::same_pay_off_refusals))]
pub fn pay_off(t: Terms, marks: &[u8], age_now: u32, increase: u32) -> Result<PayOff, Refused>
    ensures is { numbers_of_pay_off result ≡ pay_off_of t marks.now age_now increase }
    ensures priced { PayOffPriced t marks.now (numbers_of_pay_off result) }
    ensures refusals { PayOffRefusals t marks.now age_now increase (numbers_of_pay_off result) }
    ensures refused { is_refused result ≡ ltb 0 (pay_off_of t marks.now age_now increase).refusal }
{
    let e = examination::examine(t, marks)?;
    let sums = lump_sums_now(t, e.status, age_now, increase)?;
    let credit = settlement::credit_at_status(e.election, e.status, marks);
    Ok(priced(e.election, credit, sums, increase))
}
