// The reduction buy-out limit: the earliest reduced retirement age that a member may buy out to.
#![tactic(auto)]

ghost use Rattle.std.specs.Prelude.{◌≡◌, ◌*◌, ◌-◌, ◌≤◌, ◌<◌, ◌^◌, max, ltb};
ghost use Rattle.std.specs.List.{list_any};
ghost use Rattle.common.specs.Choice.{pick};
ghost use Rattle.refusals.specs.Numbers.{is_refused};
ghost use Rattle.refusals.specs.Parts.{refusal_in};
ghost use Rattle.rounding.specs.Nearest.{half_up};
ghost use Rattle.money.specs.Money.{pension};
ghost use Rattle.reduction.specs.Power.{power_of};
ghost use Rattle.reduction.specs.Potential.{potential_of};
ghost use Rattle.reduction.specs.Range.{out_of_range};
ghost use Rattle.reduction.specs.Search.{is_taken};
ghost use Rattle.reduction.specs.Answer.{reduction_limit_of, numbers_of_reduction, has_scope};
ghost use Rattle.reduction.specs.Clauses.{ReductionRefusals, ReductionAnswered};

use money::{Pence, PensionPence};
use refusals::Refusal;

// How many candidates there are.
pub const CANDIDATES: usize = 3;

// The most pounds a year that the existing pension or the limit may be.
const MOST_POUNDS: u32 = 1000000;

// The billionths in 1.
const BILLION: u64 = 1000000000;

// What is asked. Any numbers: `reduction_limit` refuses those that are out of range.
#[derive(Clone, Copy, Debug, PartialEq, Eq)]
pub struct Application {
    // normal pension age (NPA) and age, in whole years
    pub npa: u32,
    pub age: u32,
    // whole-time pay, in whole pounds a year
    pub pay: u32,
    // the early-retirement factor (ERF) of each candidate: what retiring at that age leaves of a pension, in thousandths
    pub erfs: [u32; CANDIDATES],
    // A, the Additional Pension that is there already, and L, the overall limit
    pub existing: PensionPence,
    pub limit: PensionPence,
}

// The earliest age, if there is scope; and B of each candidate, what a buy-out up to it can be worth at most: nothing for one that is
// not tried.
#[derive(Clone, Copy, Debug, PartialEq, Eq)]
pub struct ReductionLimit {
    pub age: Option<u32>,
    pub potentials: [PensionPence; CANDIDATES],
}

// The power a year later.
fn grown(power: u64) -> u64
    requires { power * 1015 < 2 ^ 64 }
    ensures { result ≡ half_up (power * 1015) 1000 }
{
    rounding::half_up(power * 1015, 1000)
}

// 1.015 to a number of years, in billionths.
#[tactic(auto, using(crate::proofs::Growth::power_more, crate::proofs::Growth::power_most), unfolding(crate::specs::Power::power_of))]
fn power_to(years: u32) -> u64
    requires { years ≤ 45 }
    ensures { result ≡ power_of years }
{
    let mut power = BILLION;
    for _ in 0..years {
        power = grown(power);
    }
    power
}

// B of a candidate: a product over 54 × 1,000 × 10^9. The hundred that makes pounds pence is cancelled on both sides, which leaves
// 540 × 10^9: with it the product would not fit 64 bits.
#[tactic(auto, using(crate::proofs::Distance::potential_cancelled, crate::proofs::Distance::grown_most, crate::proofs::Distance::product_most))]
fn potential(years: u32, power: u64, pay: u32, erf: u32) -> PensionPence
    requires { (years ≤ 45) × ((power ≡ power_of years) × ((pay ≤ 200000) × (erf ≤ 1000))) }
    ensures { result ≡ pension (potential_of years pay erf) }
{
    let reduction = 1000 - erf;
    PensionPence::of_quotient(
        years as u64 * pay as u64 * power * reduction as u64,
        540 * BILLION,
    )
}

impl Application {
    // Whether a factor is out of range, used or not.
    fn has_wrong_factor(self) -> bool
        ensures { result ≡ list_any (ltb 1000) self.erfs }
    {
        self.erfs.iter().any(|&erf| erf > 1000)
    }

    // Whether any number is.
    #[tactic(auto, unfolding(crate::specs::Range::out_of_range, crate::specs::Range::outside_range))]
    fn is_out_of_range(self) -> bool
        ensures { result ≡ out_of_range self }
    {
        let most = PensionPence::of_pounds(MOST_POUNDS);
        !(66..=70).contains(&self.npa)
            || !(24..=64).contains(&self.age)
            || !(1..=200000).contains(&self.pay)
            || self.has_wrong_factor()
            || self.existing.is_above(most)
            || self.limit.is_above(most)
    }

    fn check(self) -> Result<(), Refusal>
        ensures { refusal_in result ≡ pick (out_of_range self) 18 0 }
    {
        if self.is_out_of_range() {
            return Err(Refusal::OutOfRange);
        }
        Ok(())
    }

    // NPA − 3, but at least 65.
    fn first_candidate(self) -> u32
        ensures { result ≡ max 65 (self.npa - 3) }
    {
        self.npa.saturating_sub(3).max(65)
    }

    // Whether a candidate is taken: untested without existing pension, else if B < C. Of the two in C only L − A can be above B; and as B
    // is not below zero, L − A may be cut off at 0.
    #[tactic(auto, using(crate::proofs::Headroom::taken_none, crate::proofs::Headroom::taken_some))]
    fn is_taken(self, b: PensionPence) -> bool
        ensures { result ≡ is_taken b.0 self.existing.0 self.limit.0 }
    {
        !self.existing.is_above(PensionPence::none()) || self.limit.less(self.existing).is_above(b)
    }
}

// The first candidate below NPA that is taken, with the B of those up to it; or no scope, with the B of all below NPA. The power of each
// candidate is that of the one before it, a year further.
#[tactic(auto, using(crate::proofs::Searching::search_steps))]
pub fn reduction_limit(a: Application) -> Result<ReductionLimit, Refusal>
    ensures is { numbers_of_reduction result ≡ reduction_limit_of a }
    ensures refusals { ReductionRefusals a (numbers_of_reduction result) }
    ensures answered { ReductionAnswered a (numbers_of_reduction result) }
    ensures refused { is_refused result ≡ ltb 0 (reduction_limit_of a).refusal }
    ensures scope { has_scope result ≡ ltb 0 (reduction_limit_of a).age }
{
    a.check()?;
    let first = a.first_candidate();
    let mut power = power_to(first - a.age);
    let mut potentials = [PensionPence::none(); CANDIDATES];
    for (k, &erf) in a.erfs.iter().enumerate() {
        let candidate = first + k as u32;
        if a.npa <= candidate {
            break;
        }
        let b = potential(candidate - a.age, power, a.pay, erf);
        potentials[k] = b;
        if a.is_taken(b) {
            return Ok(ReductionLimit {
                age: Some(candidate),
                potentials,
            });
        }
        power = grown(power);
    }
    Ok(ReductionLimit {
        age: None,
        potentials,
    })
}
