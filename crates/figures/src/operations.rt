// A line for each row of a table: what is asked, and what the part gives for it. Answers are taken apart here into the columns of a line,
// which are not those that a host stores: the register, a schedule and the spelling of a refusal differ.
use crate::asked::{Asked, MarkRun, MarkRuns, On};
use crate::elapsed::Elapsed;
use money::PensionPence;
use pay_off::PayOff;
use quotes::{QuoteMade, Register};
use reduction::{Application, CANDIDATES, ReductionLimit};
use refusals::{Refusal, Refused};
use settlement::SixNumbers;
use std::io;
use terms::Terms;

fn print_cap_decision(rt: &impl Print, existing: u64) -> io::Result<()> {
    let pounds = quotes::cap_decision(PensionPence(existing));
    print!(rt; "cap {existing} is pounds {pounds}")
}

fn print_nearest(rt: &impl Print, figure: u64, divisor: u64) -> io::Result<()> {
    let nearest = rounding::nearest(figure, divisor);
    print!(rt; "nearest {figure} {divisor} is {nearest}")
}

fn print_blend(rt: &impl Print, twelfths: u32, lower: u32, upper: u32) -> io::Result<()> {
    let blend = rounding::blend(twelfths, lower, upper);
    print!(rt; "blend {twelfths} {lower} {upper} is {blend}")
}

fn print_rate(
    rt: &impl Print,
    option: u32,
    pension_age: u32,
    age: u32,
    term: u32,
) -> io::Result<()> {
    let rate = monthly::monthly_rate(option, pension_age, age, term);
    print!(rt; "rate {option} {pension_age} {age} {term} is {rate}")
}

// Refusal, contribution, number.
fn quote_columns(answer: Result<QuoteMade, Refusal>) -> (u32, u64, u32) {
    match answer {
        Err(refusal) => (refusal.number(), 0, 0),
        Ok(made) => (0, made.contribution.0, made.number),
    }
}

fn print_quote(rt: &impl Print, on: On, existing: u64, last: u32) -> io::Result<()> {
    let quoted = quotes::quote(Terms::from(on), PensionPence(existing), Register { last });
    let (refusal, contribution, number) = quote_columns(quoted.answer);
    let register = quoted.register.last;
    print!(rt; "quote {on} {existing} {last}")?;
    print!(rt;
        " is refusal {refusal} contribution {contribution} number {number} register {register}"
    )
}

fn print_settle(rt: &impl Print, on: On, runs: &[MarkRun]) -> io::Result<()> {
    let elapsed = Elapsed::of_runs(runs);
    let n = SixNumbers::from(settlement::settle(Terms::from(on), elapsed.as_slice()));
    let asked = MarkRuns(runs);
    print!(rt; "settle {on}{asked}")?;
    print!(rt;
        " is refusal {} place {} contribution {}",
        n.refusal, n.place, n.contribution
    )?;
    print!(rt;
        " status {} credit {} refund {}",
        n.status, n.credit, n.refund
    )
}

// Refusal, place.
fn schedule_columns(answer: Result<(), Refused>) -> (u32, usize) {
    match answer {
        Err(e) => (e.refusal.number(), e.place),
        Ok(()) => (0, 0),
    }
}

fn print_entries(rt: &impl Print, list: &[u32]) -> io::Result<()> {
    for entry in list {
        print!(rt; " {entry}")?;
    }
    Ok(())
}

// Each entry of the lent list holds 7 before the call, and the whole list is printed after it. A row that asks for more than 20
// entries prints nothing.
fn print_schedule(rt: &impl Print, on: On, runs: &[MarkRun], entries: usize) -> io::Result<()> {
    let mut list = [7u32; 20];
    let Some(lent) = list.get_mut(..entries) else {
        return Ok(());
    };
    let elapsed = Elapsed::of_runs(runs);
    let answer = schedule::schedule(Terms::from(on), elapsed.as_slice(), lent);
    let (refusal, place) = schedule_columns(answer);
    let asked = MarkRuns(runs);
    print!(rt; "schedule {on}{asked} {entries} is refusal {refusal} place {place} entries")?;
    print_entries(rt, lent)
}

// Refusal, place, remaining and increased pension, cost.
fn pay_off_columns(answer: Result<PayOff, Refused>) -> (u32, usize, u64, u64, u64) {
    match answer {
        Err(e) => (e.refusal.number(), e.place, 0, 0, 0),
        Ok(p) => (0, 0, p.remaining.0, p.increased.0, p.cost.0),
    }
}

fn print_pay_off(
    rt: &impl Print,
    on: On,
    runs: &[MarkRun],
    age_now: u32,
    increase: u32,
) -> io::Result<()> {
    let elapsed = Elapsed::of_runs(runs);
    let answer = pay_off::pay_off(Terms::from(on), elapsed.as_slice(), age_now, increase);
    let (refusal, place, remaining, increased, cost) = pay_off_columns(answer);
    let asked = MarkRuns(runs);
    print!(rt; "pay-off {on}{asked} {age_now} {increase}")?;
    print!(rt;
        " is refusal {refusal} place {place} remaining {remaining} increased {increased} cost {cost}"
    )
}

// Refusal, age, the B of three candidates.
fn reduction_columns(answer: Result<ReductionLimit, Refusal>) -> (u32, u32, [u64; 3]) {
    match answer {
        Err(refusal) => (refusal.number(), 0, [0, 0, 0]),
        Ok(limit) => {
            let [first, second, third] = limit.potentials;
            (0, limit.age.unwrap_or(0), [first.0, second.0, third.0])
        }
    }
}

fn print_reduction_limit(rt: &impl Print, a: Application) -> io::Result<()> {
    let (refusal, age, [first, second, third]) = reduction_columns(reduction::reduction_limit(a));
    print!(rt; "reduction-limit {} {} {}", a.npa, a.age, a.pay)?;
    let [erf_first, erf_second, erf_third] = a.erfs;
    print!(rt;
        " {erf_first} {erf_second} {erf_third} {} {}",
        a.existing.0, a.limit.0
    )?;
    print!(rt; " is refusal {refusal} age {age} first {first} second {second} third {third}")
}

fn application(
    npa: u32,
    age: u32,
    pay: u32,
    erfs: [u32; CANDIDATES],
    existing: u64,
    limit: u64,
) -> Application {
    Application {
        npa,
        age,
        pay,
        erfs,
        existing: PensionPence(existing),
        limit: PensionPence(limit),
    }
}

fn print_row(rt: &impl Print, asked: Asked) -> io::Result<()> {
    match asked {
        Asked::CapDecision(existing) => print_cap_decision(rt, existing),
        Asked::Nearest(figure, divisor) => print_nearest(rt, figure, divisor),
        Asked::Blend(twelfths, lower, upper) => print_blend(rt, twelfths, lower, upper),
        Asked::Rate(option, pension_age, age, term) => {
            print_rate(rt, option, pension_age, age, term)
        }
        Asked::ReductionLimit(npa, age, pay, erfs, existing, limit) => {
            print_reduction_limit(rt, application(npa, age, pay, erfs, existing, limit))
        }
        Asked::Quote(on, existing, last) => print_quote(rt, on, existing, last),
        Asked::Settle(on, runs) => print_settle(rt, on, runs),
        Asked::Schedule(on, runs, entries) => print_schedule(rt, on, runs, entries),
        Asked::PayOff(on, runs, age_now, increase) => {
            print_pay_off(rt, on, runs, age_now, increase)
        }
    }
}

// A line for each row, after the document's name.
pub fn print_table(rt: &impl Print, document: &str, table: &[Asked]) -> io::Result<()> {
    for asked in table {
        print!(rt; "{document}")?;
        print_row(rt, *asked)?;
        println!(rt)?;
    }
    Ok(())
}
