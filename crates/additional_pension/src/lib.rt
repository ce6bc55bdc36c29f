// Quote, Settle, the pay-off and the reduction limit for a host in C or Rust: plain numbers and a byte slice of marks in, the results as
// bytes in a lent buffer. C passes no struct here: each of the seven terms and of the three factors is a parameter, option and payer are
// numbers, and the results are numbers in the order in which they are stored. Two further calls say which
// interface and which rules the part has.
#![tactic(auto)]

ghost use Rattle.std.specs.Prelude.{◌≡◌, [], ◌∷◌};
ghost use Rattle.quotes.specs.Quote.{numbers_of_quote};
ghost use Rattle.pay_off.specs.PayOff.{numbers_of_pay_off};
ghost use Rattle.reduction.specs.Answer.{numbers_of_reduction};
ghost use Rattle.additional_pension.specs.Calls.{terms_of, application_of, host_quote_of, host_settle_of, host_pay_off_of, host_reduction_limit_of};
ghost use Rattle.additional_pension.specs.Versions.{interface_number, rules_number};

use money::PensionPence;
use pay_off::PayOff;
use quotes::{Quoted, Register};
use reduction::{Application, ReductionLimit};
use refusals::{Refusal, Refused};
use settlement::SixNumbers;
use terms::Terms;

// The calls' names and shapes.
const INTERFACE: u32 = 1;

// The last request whose rules are in the part.
const RULES: u32 = 5;

// How many bytes the results of Quote take.
const QUOTE_BYTES: usize = 24;

// How many those of Settle take.
const SETTLE_BYTES: usize = 48;

// How many those of the pay-off take.
const PAY_OFF_BYTES: usize = 40;

// How many those of the reduction limit take.
const REDUCTION_LIMIT_BYTES: usize = 40;

// The value of a call whose buffer has fewer bytes.
const SHORT_BUFFER: u32 = Refusal::WrongLength as u32;

// What a quote answers, in the order in which it is stored.
fn quote_numbers(q: Quoted) -> [u64; 3]
    ensures { result ≡ (numbers_of_quote q).refusal ∷ (numbers_of_quote q).contribution ∷ (numbers_of_quote q).next ∷ [] }
{
    match q.answer {
        Err(refusal) => [refusal.number() as u64, 0, 0],
        Ok(made) => [0, made.contribution.0, made.number as u64],
    }
}

// What a pay-off answers, in the order in which it is stored.
fn pay_off_numbers(answer: Result<PayOff, Refused>) -> [u64; 5]
    ensures { result ≡ (numbers_of_pay_off answer).refusal ∷ (numbers_of_pay_off answer).place ∷ (numbers_of_pay_off answer).remaining ∷ (numbers_of_pay_off answer).increased ∷ (numbers_of_pay_off answer).cost ∷ [] }
{
    match answer {
        Err(e) => [e.refusal.number() as u64, e.place as u64, 0, 0, 0],
        Ok(p) => [0, 0, p.remaining.0, p.increased.0, p.cost.0],
    }
}

// What a reduction limit answers, in the order in which it is stored; the age is 0 without scope.
fn reduction_numbers(answer: Result<ReductionLimit, Refusal>) -> [u64; 5]
    ensures { result ≡ (numbers_of_reduction answer).refusal ∷ (numbers_of_reduction answer).age ∷ (numbers_of_reduction answer).first ∷ (numbers_of_reduction answer).second ∷ (numbers_of_reduction answer).third ∷ [] }
{
    match answer {
        Err(refusal) => [refusal.number() as u64, 0, 0, 0, 0],
        Ok(limit) => {
            let [first, second, third] = limit.potentials;
            let age = limit.age.unwrap_or(0);
            [0, age as u64, first.0, second.0, third.0]
        }
    }
}

// Quote. A buffer of fewer than 24 bytes is left as it is and gives 14. Otherwise its first 24 bytes are refusal, contribution and
// next number, and the value is the refusal. The host keeps the register: the last number goes in, the next comes out.
#[unsafe(no_mangle)]
#[tactic(auto, using(crate::proofs::Calls::quote_short, crate::proofs::Calls::quote_value_most))]
pub extern "C" fn ap_quote(
    age: u32,
    pnpa_years: u32,
    pnpa_months: u32,
    option: u32,
    payer: u32,
    term: u32,
    amount: u32,
    existing_pence: u64,
    last_number: u32,
    out: &mut [u8],
) -> u32
    ensures value { result ≡ (host_quote_of (terms_of age pnpa_years pnpa_months option payer term amount) existing_pence last_number out.old).value }
    ensures buffer { out.new ≡ (host_quote_of (terms_of age pnpa_years pnpa_months option payer term amount) existing_pence last_number out.old).buffer }
{
    if out.len() < QUOTE_BYTES {
        return SHORT_BUFFER;
    }
    let t = Terms {
        age,
        pnpa_years,
        pnpa_months,
        option,
        payer,
        term,
        amount,
    };
    let existing = PensionPence(existing_pence);
    let register = Register { last: last_number };
    let numbers = quote_numbers(quotes::quote(t, existing, register));
    number_bytes::put_all(out, &numbers);
    numbers[0] as u32
}

// Settle. A buffer of fewer than 48 bytes is left as it is and gives 14. Otherwise its first 48 bytes are refusal, place,
// contribution, status, credit and refund, and the value is the refusal.
#[unsafe(no_mangle)]
#[tactic(auto, using(crate::proofs::Calls::settle_short, crate::proofs::Calls::settle_value_most, crate::proofs::Calls::settle_stored))]
pub extern "C" fn ap_settle(
    age: u32,
    pnpa_years: u32,
    pnpa_months: u32,
    option: u32,
    payer: u32,
    term: u32,
    amount: u32,
    marks: &[u8],
    out: &mut [u8],
) -> u32
    ensures value { result ≡ (host_settle_of (terms_of age pnpa_years pnpa_months option payer term amount) marks.now out.old).value }
    ensures buffer { out.new ≡ (host_settle_of (terms_of age pnpa_years pnpa_months option payer term amount) marks.now out.old).buffer }
{
    if out.len() < SETTLE_BYTES {
        return SHORT_BUFFER;
    }
    let t = Terms {
        age,
        pnpa_years,
        pnpa_months,
        option,
        payer,
        term,
        amount,
    };
    let n = SixNumbers::from(settlement::settle(t, marks));
    let numbers = [
        n.refusal,
        n.place,
        n.contribution,
        n.status,
        n.credit,
        n.refund,
    ];
    number_bytes::put_all(out, &numbers);
    n.refusal as u32
}

// The pay-off. A buffer of fewer than 40 bytes is left as it is and gives 14. Otherwise its first 40 bytes are refusal, place, remaining
// pension, increased pension and cost, and the value is the refusal.
#[unsafe(no_mangle)]
#[tactic(auto, using(crate::proofs::Calls::pay_off_short, crate::proofs::Calls::pay_off_value_most))]
pub extern "C" fn ap_pay_off(
    age: u32,
    pnpa_years: u32,
    pnpa_months: u32,
    option: u32,
    payer: u32,
    term: u32,
    amount: u32,
    marks: &[u8],
    age_now: u32,
    increase: u32,
    out: &mut [u8],
) -> u32
    ensures value { result ≡ (host_pay_off_of (terms_of age pnpa_years pnpa_months option payer term amount) marks.now age_now increase out.old).value }
    ensures buffer { out.new ≡ (host_pay_off_of (terms_of age pnpa_years pnpa_months option payer term amount) marks.now age_now increase out.old).buffer }
{
    if out.len() < PAY_OFF_BYTES {
        return SHORT_BUFFER;
    }
    let t = Terms {
        age,
        pnpa_years,
        pnpa_months,
        option,
        payer,
        term,
        amount,
    };
    let numbers = pay_off_numbers(pay_off::pay_off(t, marks, age_now, increase));
    number_bytes::put_all(out, &numbers);
    numbers[0] as u32
}

// The reduction limit. A buffer of fewer than 40 bytes is left as it is and gives 14. Otherwise its first 40 bytes are refusal, age and
// the B of the three candidates, and the value is the refusal.
#[unsafe(no_mangle)]
#[tactic(auto, using(crate::proofs::Calls::reduction_short, crate::proofs::Calls::reduction_value_most))]
pub extern "C" fn ap_reduction_limit(
    npa: u32,
    age: u32,
    pay: u32,
    erf_first: u32,
    erf_second: u32,
    erf_third: u32,
    existing_pence: u64,
    limit_pence: u64,
    out: &mut [u8],
) -> u32
    ensures value { result ≡ (host_reduction_limit_of (application_of npa age pay erf_first erf_second erf_third existing_pence limit_pence) out.old).value }
    ensures buffer { out.new ≡ (host_reduction_limit_of (application_of npa age pay erf_first erf_second erf_third existing_pence limit_pence) out.old).buffer }
{
    if out.len() < REDUCTION_LIMIT_BYTES {
        return SHORT_BUFFER;
    }
    let a = Application {
        npa,
        age,
        pay,
        erfs: [erf_first, erf_second, erf_third],
        existing: PensionPence(existing_pence),
        limit: PensionPence(limit_pence),
    };
    let numbers = reduction_numbers(reduction::reduction_limit(a));
    number_bytes::put_all(out, &numbers);
    numbers[0] as u32
}

// The number of the calls' names and shapes: a host that was built for another may not make the other calls.
#[unsafe(no_mangle)]
pub extern "C" fn ap_interface() -> u32
    ensures { result ≡ interface_number }
{
    INTERFACE
}

// The number of the last request whose rules are in the part: results may be others than by the rules of another number.
#[unsafe(no_mangle)]
pub extern "C" fn ap_rules() -> u32
    ensures { result ≡ rules_number }
{
    RULES
}
