// The contract record, and posting a month in its own memory.
#![tactic(auto)]

ghost use Rattle.std.specs.Prelude.{◌≡◌};
ghost use Rattle.records.specs.Record.{all_zero};
ghost use Rattle.records.specs.Check.{check_in, check_of};
ghost use Rattle.refusals.specs.Places.{refused_in};
ghost use Rattle.records.specs.Post.{post_of, posted_record};
ghost use Rattle.records.specs.History.{fresh_record};

use money::PensionPence;
use refusals::{Refusal, Refused};
use scheme::MOST_MARKS;
use terms::Terms;

// The marks before the count are in use; the others are 0. Fixed memory: the rules give the record this shape, and the caller lends it.
#[derive(Clone, Copy)]
pub struct Contract {
    pub terms: Terms,
    pub marks: [u8; MOST_MARKS],
    pub count: usize,
}

// A record of terms, before any mark is posted.
pub fn fresh_record(terms: Terms) -> Contract
    ensures { result ≡ fresh_record terms }
{
    Contract {
        terms,
        marks: [0; MOST_MARKS],
        count: 0,
    }
}

fn all_zero(marks: &[u8]) -> bool
    ensures { result ≡ all_zero marks.now }
{
    marks.iter().all(|mark| *mark == 0)
}

// The check of a record that posting and the total both make: the credit of one that is not bad.
pub fn check_record(c: Contract) -> Result<PensionPence, Refusal>
    ensures { check_in result ≡ check_of c }
{
    let Some((used, unused)) = c.marks.split_at_checked(c.count) else {
        return Err(Refusal::BadRecord);
    };
    if !all_zero(unused) {
        return Err(Refusal::BadRecord);
    }
    match settlement::settle(c.terms, used) {
        Err(_) => Err(Refusal::BadRecord),
        Ok(held) => Ok(held.credit),
    }
}

// 13 for a bad record; then 10, 11 or 12 as the marks with the new one are refused.
fn check_posting(c: Contract, mark: u8) -> Result<(), Refused>
    ensures { refused_in result ≡ post_of c mark }
{
    check_record(c)?;
    let term = c.terms.term;
    if c.count >= marks::mark_limit(term) {
        return Err(Refusal::TooManyMarks.into());
    }
    let (used, _) = c.marks.split_at(c.count);
    let read = marks::read_marks(used, scheme::OPEN_MONTHS, term)?;
    marks::read_mark(read, mark)?;
    Ok(())
}

// Adds one mark to the lent record. Nothing else of it is written than that mark and the count, and those only where the mark is taken.
pub fn post(c: &mut Contract, mark: u8) -> Result<(), Refused>
    ensures { (refused_in result ≡ post_of c.old mark) × (c.new ≡ posted_record c.old mark) }
{
    check_posting(*c, mark)?;
    c.marks[c.count] = mark;
    c.count += 1;
    Ok(())
}
