// One line of the case file to one line of the listing.
#![tactic(auto)]

ghost use Rattle.std.specs.Prelude.{◌≡◌, ◌≤◌, length};
ghost use Rattle.settlement.specs.Six.{as_settle_numbers};
ghost use Rattle.case_line.specs.Shape.{fields_of};
ghost use Rattle.case_line.specs.Line.{fields_bytes, listed_as, wrong_shape, line_of};
ghost use Rattle.case_line.specs.Steps.{row_or_wrong_shape, DigitsRead};

use refusals::Refusal;
use settlement::SixNumbers;
use terms::Terms;

// What the fields before the marks say.
#[derive(Clone, Copy)]
struct Case {
    election: u32,
    terms: Terms,
}

// The bytes before the marks.
const FIELDS_BYTES: usize = 29;

// The most bytes that a line has.
const LONGEST_LINE: usize = 285;

// The most of them that are marks.
const MOST_DIGITS: usize = 256;

// The bytes of a line of the listing, its end included.
pub const LISTED_BYTES: usize = 46;

// The eight fields, each in its own bytes, where each says a number.
fn read_fields(line: &[u8]) -> Option<Case>
    requires { fields_bytes ≤ length line.now }
    ensures { result ≡ fields_of line.now }
{
    let election = text::number_in(&line[0..6])?;
    let age = text::number_in(&line[6..9])?;
    let pnpa_years = text::number_in(&line[9..12])?;
    let pnpa_months = text::number_in(&line[12..15])?;
    let option = text::number_in(&line[15..17])?;
    let payer = text::number_in(&line[17..19])?;
    let term = text::number_in(&line[19..22])?;
    let amount = text::number_in(&line[22..29])?;
    let terms = Terms {
        age,
        pnpa_years,
        pnpa_months,
        option,
        payer,
        term,
        amount,
    };
    Some(Case { election, terms })
}

// Puts the numbers of the digits into marks, if all are digits.
#[tactic(auto, using(crate::proofs::Marks::no_digit))]
fn read_digits(digits: &[u8], marks: &mut [u8]) -> Option<()>
    requires { length digits.now ≤ length marks.old }
    ensures { DigitsRead digits.now marks.new result }
{
    for (i, b) in digits.iter().enumerate() {
        if !b.is_ascii_digit() {
            return None;
        }
        marks[i] = *b - b'0';
    }
    Some(())
}

// A line of the listing: the election and the six numbers, each at the right of its field, and the line end.
fn listed(election: u32, n: SixNumbers) -> [u8; LISTED_BYTES]
    ensures { result ≡ listed_as election (as_settle_numbers n) }
{
    let mut row = [b' '; LISTED_BYTES];
    text::put_number(&mut row, 0, 6, election as u64);
    text::put_number(&mut row, 6, 3, n.refusal);
    text::put_number(&mut row, 9, 4, n.place);
    text::put_number(&mut row, 13, 2, n.status);
    text::put_number(&mut row, 15, 10, n.contribution);
    text::put_number(&mut row, 25, 10, n.credit);
    text::put_number(&mut row, 35, 10, n.refund);
    row[45] = b'\n';
    row
}

// The listing's line for a wrong shape: refusal 15, all else 0.
#[tactic(auto, unfolding(crate::specs::Line::wrong_shape))]
fn wrong_shape() -> [u8; LISTED_BYTES]
    ensures { result ≡ wrong_shape }
{
    listed(0, SixNumbers::from(Err(Refusal::WrongShape.into())))
}

// The listing's line for a line of the right shape: 29 to 285 bytes, eight fields that say numbers, and digits after them.
#[tactic(auto, using(crate::proofs::Shapes::too_short, crate::proofs::Shapes::too_long, crate::proofs::Shapes::no_fields, crate::proofs::Shapes::whole_line, crate::proofs::Shapes::settled_line_lem))]
fn settle_shape(line: &[u8]) -> Option<[u8; LISTED_BYTES]>
    ensures { row_or_wrong_shape result ≡ line_of line.now }
{
    if line.len() < FIELDS_BYTES || line.len() > LONGEST_LINE {
        return None;
    }
    let case = read_fields(line)?;
    let digits = &line[FIELDS_BYTES..];
    let mut marks = [0u8; MOST_DIGITS];
    read_digits(digits, &mut marks)?;
    let answer = settlement::settle(case.terms, &marks[..digits.len()]);
    Some(listed(case.election, SixNumbers::from(answer)))
}

// The listing's line for a line of the file, whatever its bytes are.
pub fn settle_line(line: &[u8]) -> [u8; LISTED_BYTES]
    ensures { result ≡ line_of line.now }
{
    match settle_shape(line) {
        Some(row) => row,
        None => wrong_shape(),
    }
}
