// Posts histories into records and totals lists of records. Each line written is held to the stored output.
#![tactic(auto)]

mod cases;
mod postings;

use cases::{Forged, ForgedLumpSum, History};
use records::Contract;
use refusals::Refused;
use scheme::MOST_MARKS;
use std::io;
use terms::Terms;

// From age 50, with dependant's pension, at pension age 65: by monthly payments, or at term 0 by a lump sum.
fn terms_for(term: u32, amount: u32) -> Terms {
    Terms {
        age: 50,
        pnpa_years: 65,
        pnpa_months: 0,
        option: 2,
        payer: 1,
        term,
        amount,
    }
}

// A record with its count and one mark set from outside, whatever they are.
fn forged(terms: Terms, at: usize, mark: u8, count: usize) -> Contract {
    let mut marks = [0u8; MOST_MARKS];
    if let Some(set) = marks.get_mut(at) {
        *set = mark;
    }
    Contract {
        terms,
        marks,
        count,
    }
}

// A lump sum's record with its count and its first marks set from outside, whatever they are.
fn forged_lump_sum(case: ForgedLumpSum) -> Contract {
    let ForgedLumpSum(set, mark, count) = case;
    let mut held = records::fresh_record(terms_for(0, 250));
    if let Some(first) = held.marks.get_mut(..set) {
        first.fill(mark);
    }
    held.count = count;
    held
}

// Paid months, then missed ones, then another mark a number of times, posted into a record. Gives the answer to the last posting.
fn post_history(c: &mut Contract, h: History) -> Result<(), Refused> {
    let History(paid, missed, mark, times) = h;
    let after_paid = postings::post_times(c, Ok(()), 1, paid);
    let after_missed = postings::post_times(c, after_paid, 0, missed);
    postings::post_times(c, after_missed, mark, times)
}

// The refusal of an answer and its place; 0 and 0 where it is none.
fn refusal_and_place<A: Drop>(answer: &Result<A, Refused>) -> (u32, usize) {
    match answer {
        Err(e) => (e.refusal.number(), e.place),
        Ok(_) => (0, 0),
    }
}

// The answer to the last posting, then the record as it is left: its count, 1 for a bad one, its credit.
fn write_outcome(rt: &impl Print, posted: Result<(), Refused>, left: &Contract) -> io::Result<()> {
    let (refusal, place) = refusal_and_place(&posted);
    let check = records::check_record(*left);
    let bad = check.is_err() as u8;
    let credit = check.map_or(0, |credit| credit.0);
    let count = left.count;
    println!(rt; "{refusal:10}{place:6}{count:6}{bad:4}{credit:8}")
}

fn write_history(rt: &impl Print, contract: Contract, h: History) -> io::Result<()> {
    let History(paid, missed, mark, times) = h;
    print!(rt; "{paid:6}{missed:7}{mark:6}{times:6}")?;
    let mut held = contract;
    let posted = post_history(&mut held, h);
    write_outcome(rt, posted, &held)
}

// Each history is posted into a record of its own.
fn write_histories(rt: &impl Print, contract: Contract, histories: &[History]) -> io::Result<()> {
    for h in histories {
        write_history(rt, contract, *h)?;
    }
    Ok(())
}

fn from_the_start(rt: &impl Print, monthly: Contract, lump: Contract) -> io::Result<()> {
    println!(rt; "  paid missed  mark times   refusal place count bad  credit")?;
    write_histories(rt, monthly, &cases::HISTORIES)?;
    write_histories(rt, lump, &cases::LUMP_SUM)
}

fn after_the_end(rt: &impl Print, monthly: Contract, lump: Contract) -> io::Result<()> {
    let mut ended = monthly;
    let _ = post_history(&mut ended, History(12, 0, 2, 1));
    println!(rt; "posted after 12 paid and the end")?;
    write_histories(rt, ended, &cases::AFTER_THE_END)?;
    let mut gone_back = lump;
    let _ = post_history(&mut gone_back, History(3, 0, 2, 1));
    println!(rt; "posted after 3 paid and the end of a lump sum")?;
    write_histories(rt, gone_back, &cases::AFTER_THE_END)
}

// A paid month is posted into a record that was set from outside.
fn write_posting_into(rt: &impl Print, outside: Contract) -> io::Result<()> {
    let mut held = outside;
    let posted = postings::post_times(&mut held, Ok(()), 1, 1);
    write_outcome(rt, posted, &held)
}

fn write_forged(rt: &impl Print, case: Forged) -> io::Result<()> {
    let Forged(amount, at, mark, count) = case;
    print!(rt; "{at:6}{mark:6}{count:7}      ")?;
    write_posting_into(rt, forged(terms_for(5, amount), at, mark, count))
}

fn write_forged_lump_sum(rt: &impl Print, case: ForgedLumpSum) -> io::Result<()> {
    let ForgedLumpSum(set, mark, count) = case;
    print!(rt; "{set:6}{mark:6}{count:7}      ")?;
    write_posting_into(rt, forged_lump_sum(case))
}

fn write_forged_records(rt: &impl Print) -> io::Result<()> {
    println!(rt; "    at  mark  count         refusal place count bad  credit")?;
    for case in &cases::FORGED {
        write_forged(rt, *case)?;
    }
    Ok(())
}

fn write_forged_lump_sums(rt: &impl Print) -> io::Result<()> {
    println!(rt; "lump sum")?;
    println!(rt; "   set  mark  count         refusal place count bad  credit")?;
    for case in &cases::FORGED_LUMP_SUMS {
        write_forged_lump_sum(rt, *case)?;
    }
    Ok(())
}

// The totals over the first records, for each number of them.
fn write_total_of_each(
    rt: &impl Print,
    list: &[Contract; 65],
    numbers: &[usize],
) -> io::Result<()> {
    for n in numbers {
        let total = postings::total_of_first(list, *n);
        let (refusal, index) = refusal_and_place(&total);
        let credit = total.map_or(0, |credit| credit.0);
        println!(rt; "{n:7}{refusal:28}{index:6}{credit:18}")?;
    }
    Ok(())
}

fn write_totals(rt: &impl Print, lump: Contract, paid: Contract, bad: Contract) -> io::Result<()> {
    let mut list = [lump; 65];
    println!(rt; "records                     refusal index             total")?;
    write_total_of_each(rt, &list, &[0, 1, 64, 65])?;
    list[1] = paid;
    write_total_of_each(rt, &list, &[2])?;
    // one bad at 3
    list[3] = bad;
    write_total_of_each(rt, &list, &[3, 4, 64, 65])?;
    // the first bad
    list[0] = bad;
    write_total_of_each(rt, &list, &[64, 0])
}

// Lump sums of a whole first year; then one that went back among them; then a bad one at 3.
fn write_totals_of_lump_sums(rt: &impl Print) -> io::Result<()> {
    let mut list = [forged_lump_sum(ForgedLumpSum(12, 1, 12)); 65];
    println!(rt; "lump sums with marks")?;
    write_total_of_each(rt, &list, &[1, 64])?;
    list[1] = forged_lump_sum(ForgedLumpSum(12, 2, 12));
    write_total_of_each(rt, &list, &[2, 64])?;
    list[3] = forged_lump_sum(ForgedLumpSum(13, 1, 13));
    write_total_of_each(rt, &list, &[3, 4, 64])
}

fn main(rt: HostRuntime) -> io::Result<()> {
    let monthly = records::fresh_record(terms_for(5, 1000));
    let lump = records::fresh_record(terms_for(0, 250));
    from_the_start(&rt, monthly, lump)?;
    after_the_end(&rt, monthly, lump)?;
    write_forged_records(&rt)?;
    write_forged_lump_sums(&rt)?;
    let mut paid = monthly;
    let _ = post_history(&mut paid, History(18, 0, 1, 0));
    write_totals(&rt, lump, paid, forged(terms_for(5, 1000), 1, 1, 0))?;
    write_totals_of_lump_sums(&rt)
}
