// The rates that the terms of an election go by, the first rule that refuses them, and their contribution.
#![tactic(auto)]

ghost use Rattle.std.specs.Prelude.{◌≡◌, ◌+◌, ◌≤◌, IfOk};
ghost use Rattle.scheme.specs.Scheme.{cap_pounds};
ghost use Rattle.refusals.specs.Parts.{refusal_in};
ghost use Rattle.money.specs.Contribution.{contribution};
ghost use Rattle.terms.specs.Rate.{rate_for, table_rate};
ghost use Rattle.terms.specs.Rules.{missing_upper, wrong_amount, above_cap, refusal_of};
ghost use Rattle.terms.specs.RefusalParts.{rate_refusal, amount_refusal};
ghost use Rattle.election.specs.ContributionOf.{contribution_of};
ghost use Rattle.election.specs.LookedUp.{if_printed, upper_rate, rates_of};
ghost use Rattle.election.specs.TermsAccepted.{TermsAccepted};

use money::{ContributionPence, Pence, PensionPence};
use refusals::Refusal;
use terms::Terms;

// The rate of the only or lower pension age, and that of the upper where odd months need one.
#[derive(Clone, Copy, Debug, PartialEq, Eq)]
pub struct TableRates {
    pub lower: u32,
    pub upper: Option<u32>,
}

// The rate for an option, a whole pension age, an age and a term, 0 where none is printed, as both lookups give it: of Table S for a lump
// sum, else of the monthly table. It is called and not inlined, so it takes fields: terms go by their address, copied for each call.
#[inline(never)]
#[tactic(auto, using(common::proofs::Tests::tests), unfolding(terms::specs::Rate::rate_for))]
fn rate_for(option: u32, pension_age: u32, age: u32, term: u32) -> u32
    ensures { result ≡ rate_for option pension_age age term }
{
    if term == 0 {
        rates::lump_sum_rate(option, pension_age, age)
    } else {
        monthly::monthly_rate(option, pension_age, age, term)
    }
}

// That of terms.
#[tactic(auto, unfolding(terms::specs::Rate::table_rate))]
fn table_rate(t: Terms, pension_age: u32) -> u32
    ensures { result ≡ table_rate t pension_age }
{
    rate_for(t.option, pension_age, t.age, t.term)
}

// The same where it is printed.
#[tactic(auto, using(common::proofs::Tests::tests))]
fn rate_at(t: Terms, pension_age: u32) -> Option<u32>
    ensures { result ≡ if_printed (table_rate t pension_age) }
{
    match table_rate(t, pension_age) {
        0 => None,
        rate => Some(rate),
    }
}

// That of the upper pension age.
#[tactic(auto, using(crate::proofs::Rates::past_is_none))]
fn rate_above(t: Terms) -> Option<u32>
    ensures { result ≡ if_printed (table_rate t (t.pnpa_years + 1)) }
{
    rate_at(t, t.pnpa_years.checked_add(1)?)
}

// The rate of the upper pension age where odd months need one, 0 where none is printed.
#[tactic(auto, using(crate::proofs::Laws::upper_rate_odd, crate::proofs::Laws::upper_rate_whole, crate::proofs::Rates::past_is_zero))]
fn upper_rate(t: Terms) -> Option<u32>
    ensures { result ≡ upper_rate t }
{
    if t.pnpa_months == 0 {
        return None;
    }
    match t.pnpa_years.checked_add(1) {
        Some(next) => Some(table_rate(t, next)),
        None => Some(0),
    }
}

// The rates that terms go by, whatever the terms: 0 for one that is needed and not printed.
pub fn rates_of(t: Terms) -> TableRates
    ensures { result ≡ rates_of t }
{
    TableRates {
        lower: table_rate(t, t.pnpa_years),
        upper: upper_rate(t),
    }
}

// Whether the upper pension age is needed and has no rate.
#[tactic(auto, using(common::proofs::Tests::tests), unfolding(terms::specs::Rules::missing_upper))]
pub fn missing_upper(t: Terms, upper: u32) -> bool
    ensures { result ≡ missing_upper t upper }
{
    t.pnpa_months != 0 && upper == 0
}

impl TableRates {
    // The rates that terms go by, whatever the terms; or 5 or 6, the rules on rates. A lump sum without a rate at the upper pension age
    // is 5, a monthly contract 6.
    #[tactic(auto, using(common::proofs::Tests::tests, crate::proofs::Laws::upper_rate_odd, crate::proofs::Laws::upper_rate_whole, crate::proofs::Rates::found, crate::proofs::Rates::not_found, crate::proofs::Rates::lower_lacks, crate::proofs::Rates::whole_passes, crate::proofs::Rates::odd_passes, crate::proofs::Rates::lump_sum_lacks, crate::proofs::Rates::monthly_lacks))]
    pub fn of(t: Terms) -> Result<TableRates, Refusal>
        ensures refusal { refusal_in result ≡ rate_refusal t }
        ensures rates { IfOk result (λ r. r ≡ rates_of t) }
    {
        let Some(lower) = rate_at(t, t.pnpa_years) else {
            return Err(Refusal::NoRate);
        };
        if t.pnpa_months == 0 {
            return Ok(TableRates { lower, upper: None });
        }
        match rate_above(t) {
            Some(upper) => Ok(TableRates {
                lower,
                upper: Some(upper),
            }),
            None if t.term == 0 => Err(Refusal::NoRate),
            None => Err(Refusal::NoUpperRate),
        }
    }

    // The contribution of terms whose amount the cap allows, at the rates that are theirs.
    #[tactic(auto, using(rounding::proofs::Laws::combine_none, rounding::proofs::Laws::combine_odd, crate::proofs::Laws::upper_rate_is, crate::proofs::Laws::upper_rate_none), unfolding(crate::specs::ContributionOf::contribution_of, crate::specs::ContributionOf::contribution_in, crate::specs::ContributionOf::contribution_at))]
    pub fn contribution(self, t: Terms) -> ContributionPence
        requires { (t.amount ≤ cap_pounds) × (self ≡ rates_of t) }
        ensures { result ≡ contribution (contribution_of t) }
    {
        let units = t.units();
        let own = ContributionPence::of_units(units, self.lower);
        match self.upper {
            Some(rate) => own.blend(ContributionPence::of_units(units, rate), t.pnpa_months),
            None => own,
        }
    }
}

// Terms that no rule refuses, with the rates that they go by.
#[derive(Clone, Copy)]
pub struct Election {
    pub terms: Terms,
    pub rates: TableRates,
    pub ghost accepted: { TermsAccepted terms 0 },
    pub ghost looked_up: { rates ≡ rates_of terms },
}

impl Election {
    // The terms as they are elected beside an existing pension; or the first of the rules 1 to 8 that refuses. Called, it would hand on what is
    // accepted by its address.
    #[inline]
    #[tactic(auto, using(refusals::proofs::Numbers::refusal_positive, terms::proofs::Laws::terms_decide, terms::proofs::Laws::rates_decide, terms::proofs::Laws::amount_decides))]
    pub fn new(t: Terms, existing: PensionPence) -> Result<Election, Refusal>
        ensures refusal { refusal_in result ≡ refusal_of t existing.0 }
        ensures terms { IfOk result (λ e. e.terms ≡ t) }
    {
        t.check()?;
        let rates = TableRates::of(t)?;
        check_amount(t, existing)?;
        Ok(Election { terms: t, rates })
    }

    // What it is bought with: a month's contribution, or the lump sum.
    pub fn contribution(self) -> ContributionPence
        ensures { result ≡ contribution (contribution_of self.terms) }
    {
        self.rates.contribution(self.terms)
    }
}

// The rules on amount and cap, 7 and 8, of terms beside an existing pension: a member has one and many requests, so no type holds both.
#[tactic(auto, unfolding(terms::specs::RefusalParts::amount_refusal))]
fn check_amount(t: Terms, existing: PensionPence) -> Result<(), Refusal>
    ensures { refusal_in result ≡ amount_refusal t existing.0 }
{
    if wrong_amount(t) {
        return Err(Refusal::WrongAmount);
    }
    if above_cap(t, existing) {
        return Err(Refusal::AboveCap);
    }
    Ok(())
}

#[tactic(auto, using(common::proofs::Tests::tests), unfolding(terms::specs::Rules::wrong_amount))]
fn wrong_amount(t: Terms) -> bool
    ensures { result ≡ wrong_amount t }
{
    t.amount < scheme::STEP || t.amount % scheme::STEP != 0
}

// Whether the existing pension and the amount together are above the cap. No sum of any existing pension and any amount is made,
// since it could wrap.
#[tactic(auto, using(common::proofs::Tests::tests), unfolding(terms::specs::Rules::above_cap))]
fn above_cap(t: Terms, existing: PensionPence) -> bool
    ensures { result ≡ above_cap t existing.0 }
{
    let cap = PensionPence::of_pounds(scheme::CAP);
    existing.is_above(cap) || PensionPence::of_pounds(t.amount).is_above(cap.less(existing))
}
