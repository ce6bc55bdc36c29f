// What the operations refuse, by the numbers of O1.
#![tactic(auto)]

ghost use Rattle.std.specs.Prelude.{◌≡◌};
ghost use Rattle.refusals.specs.Numbers.{refusal_number};
ghost use Rattle.refusals.specs.Parts.{at_no_place};

use std::error::Error;
use std::fmt;

// The rules that refuse, in the order of their numbers, 1 to 18.
#[derive(Clone, Copy, Debug, PartialEq, Eq)]
pub enum Refusal {
    WrongOption = 1,
    WrongPensionAge,
    WrongTerm,
    WrongPayer,
    // no lump sum printed, or no rate in the only or lower monthly table
    NoRate,
    NoUpperRate,
    WrongAmount,
    AboveCap,
    NoNumberLeft,
    TooManyMarks,
    // a mark above 2
    UnknownMark,
    // a mark that is unlawful where it stands
    UnlawfulMark,
    BadRecord,
    // a list or buffer of the wrong length
    WrongLength,
    // a line of the wrong shape
    WrongShape,
    NothingToPayOff,
    WrongIncrease,
    // a number of a reduction limit that is out of range
    OutOfRange,
}

impl Refusal {
    // Its number.
    pub fn number(self) -> u32
        ensures { result ≡ refusal_number self }
    {
        self as u32
    }
}

impl fmt::Display for Refusal {
    fn fmt<W: fmt::Write>(&self, f: &mut fmt::Formatter<W>) -> fmt::Result {
        f.write_str(match self {
            Refusal::WrongOption => "no such option",
            Refusal::WrongPensionAge => "a pension age out of range",
            Refusal::WrongTerm => "a term of too many years",
            Refusal::WrongPayer => "no such payer, or an employer who would pay by the month",
            Refusal::NoRate => "no rate at this age",
            Refusal::NoUpperRate => "no rate at this age for the later pension age",
            Refusal::WrongAmount => "an amount that is no step",
            Refusal::AboveCap => "more pension than the cap",
            Refusal::NoNumberLeft => "no quote number left",
            Refusal::TooManyMarks => "more marks than the contract takes",
            Refusal::UnknownMark => "a mark above 2",
            Refusal::UnlawfulMark => "a mark that is unlawful where it stands",
            Refusal::BadRecord => "a bad record",
            Refusal::WrongLength => "a list or buffer of the wrong length",
            Refusal::WrongShape => "a line of the wrong shape",
            Refusal::NothingToPayOff => "nothing that could be paid off",
            Refusal::WrongIncrease => "an increase out of range",
            Refusal::OutOfRange => "a number out of range",
        })
    }
}

impl Error for Refusal {}

// A refusal, and the index of the mark or record that it is about; 0 for a rule that names none.
#[derive(Clone, Copy, Debug, PartialEq, Eq)]
pub struct Refused {
    pub refusal: Refusal,
    pub place: usize,
}

impl From<Refusal> for Refused {
    ghost from_gives = { λ refusal r. r ≡ at_no_place refusal };

    fn from(refusal: Refusal) -> Refused {
        Refused { refusal, place: 0 }
    }
}

impl fmt::Display for Refused {
    fn fmt<W: fmt::Write>(&self, f: &mut fmt::Formatter<W>) -> fmt::Result {
        write!(f, "{}, place {}", self.refusal, self.place)
    }
}

impl Error for Refused {}
