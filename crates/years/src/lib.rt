// The whole-year credits of one table, and the value at a contract month.
#![tactic(auto)]

ghost use Rattle.std.specs.Prelude.{◌≡◌, ℕ, ◌*◌, ◌-◌, ◌<◌, ◌≤◌, ◌^◌, get_or};
ghost use Rattle.rounding.specs.Nearest.{nearest};
ghost use Rattle.scheme.specs.Scheme.{pounds_in_pence};
ghost use Rattle.money.specs.Money.{pension};
ghost use Rattle.rates.specs.Rates.{rate_of};
ghost use Rattle.years.specs.Years.{year_credits, month_value};
ghost use Rattle.years.specs.Elected.{purchase_in};

use common::MONTHS_IN_YEAR;
use money::{ContributionPence, Pence, PensionPence};
use scheme::ROW_PLACES;
use terms::Terms;

// What a monthly contribution buys in as many years as the rate, which is for so much pension, is for.
fn year_credit(own: ContributionPence, unit: PensionPence, rate: u32) -> u32
    requires { (0 < rate) × (own.0 * unit.0 ≤ (2 ^ 32 - 1) * rate) }
    ensures { result ≡ nearest (own.0 * unit.0) rate }
{
    own.buys(unit, rate).0 as u32
}

// The twenty-one whole-year credits of terms at a whole pension age; `rate` is that of the term. Year 0 and the years past the term stay 0.
#[tactic(auto, using(rates::proofs::Laws::rate_printed, crate::proofs::Elected::rates_fall, crate::proofs::Years::year_none))]
pub fn year_credits(t: Terms, pension_age: u32, rate: u32) -> [u32; ROW_PLACES]
    requires rate_value { rate ≡ rate_of t.option pension_age t.age t.term }
    requires rate_nonzero { (0 < rate) × (pounds_in_pence t.amount < 2 ^ 32) }
    ensures is { result ≡ year_credits nearest (purchase_in t pension_age) }
    ensures most { (n : ℕ) → get_or result n 0 ≤ pounds_in_pence t.amount }
{
    let own = ContributionPence::of_units(t.units(), rate);
    let unit = PensionPence::of_pounds(scheme::STEP);
    let mut years = [0u32; ROW_PLACES];
    for n in 1..=t.term {
        let yearly = monthly::monthly_rate(t.option, pension_age, t.age, n);
        years[n as usize] = year_credit(own, unit, yearly);
    }
    years
}

// The credit of a whole year; past the row there is none. The row is lent, by value it would be copied, and asked twice, so this has a
// name and a promise.
fn year_at(years: &[u32], n: u32) -> u32
    ensures { result ≡ get_or years.now n 0 }
{
    years.get(n as usize).copied().unwrap_or(0)
}

// The value at a contract month. Both ends of every run are valued here.
#[tactic(auto, using(rounding::proofs::Laws::blend_most), unfolding(rounding::specs::Nearest::blend, crate::specs::Years::month_value))]
pub fn month_value(years: [u32; ROW_PLACES], month: u32) -> PensionPence
    ensures is { result ≡ pension (month_value nearest years month) }
    ensures fits { result.0 < 2 ^ 32 }
{
    let n = month / MONTHS_IN_YEAR;
    let year = PensionPence(year_at(&years, n) as u64);
    let next = PensionPence(year_at(&years, n + 1) as u64);
    year.blend(next, month % MONTHS_IN_YEAR)
}
