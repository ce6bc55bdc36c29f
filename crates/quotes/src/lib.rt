// Quotes with their numbers, and how much more pension the cap lets a member buy.
#![tactic(auto)]

ghost use Rattle.std.specs.Prelude.{◌≡◌, ltb};
ghost use Rattle.refusals.specs.Numbers.{is_refused};
ghost use Rattle.quotes.specs.Quote.{quote_answer_numbers, quote_of, numbers_of_quote};
ghost use Rattle.quotes.specs.Register.{last_after};
ghost use Rattle.quotes.specs.Cap.{cap_decision_of, GreatestUnderCap};

use election::Election;
use money::{ContributionPence, PensionPence};
use refusals::Refusal;
use terms::Terms;

// The register of quotes: the last number that was given.
#[derive(Clone, Copy, Debug, PartialEq, Eq)]
pub struct Register {
    pub last: u32,
}

// The contribution of an election, and the number under which it was quoted.
#[derive(Clone, Copy, Debug, PartialEq, Eq)]
pub struct QuoteMade {
    pub contribution: ContributionPence,
    pub number: u32,
}

// The answer to a request, with the register handed back.
#[derive(Clone, Copy, Debug, PartialEq, Eq)]
pub struct Quoted {
    pub answer: Result<QuoteMade, Refusal>,
    pub register: Register,
}

// The last number of a register that is full.
pub const LAST_QUOTE_NUMBER: u32 = 999999;

// The contribution and the next number; or the first of the refusals 1 to 9.
#[tactic(auto, using(common::proofs::Tests::tests, refusals::proofs::Numbers::refusal_positive), unfolding(crate::specs::Quote::quote_of, crate::specs::Quote::quote_refusal))]
fn answer(t: Terms, existing: PensionPence, register: Register) -> Result<QuoteMade, Refusal>
    ensures is { quote_answer_numbers result (last_after result register.last) ≡ quote_of t existing.0 register.last }
    ensures refused { is_refused result ≡ ltb 0 (quote_of t existing.0 register.last).refusal }
{
    let election = Election::new(t, existing)?;
    if LAST_QUOTE_NUMBER <= register.last {
        return Err(Refusal::NoNumberLeft);
    }
    Ok(QuoteMade {
        contribution: election.contribution(),
        number: register.last + 1,
    })
}

// The same with the register handed back: as it was, where the request is refused.
pub fn quote(t: Terms, existing: PensionPence, register: Register) -> Quoted
    ensures is { numbers_of_quote result ≡ quote_of t existing.0 register.last }
    ensures refused { is_refused result.answer ≡ ltb 0 (quote_of t existing.0 register.last).refusal }
{
    let answer = answer(t, existing, register);
    let last = answer.map_or(register.last, |quote| quote.number);
    Quoted {
        answer,
        register: Register { last },
    }
}

// How many pounds may still be bought, in steps of £250.
#[tactic(auto, unfolding(crate::specs::Cap::cap_decision_of))]
pub fn cap_decision(existing: PensionPence) -> u32
    ensures is { result ≡ cap_decision_of existing.0 }
    ensures greatest { GreatestUnderCap existing.0 result }
{
    let left = PensionPence::of_pounds(scheme::CAP).less(existing);
    let steps = left.whole_steps(PensionPence::of_pounds(scheme::STEP));
    (steps * scheme::STEP as u64) as u32
}
