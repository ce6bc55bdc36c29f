// What a contract can be, by its marks.

ghost use Rattle.std.specs.Prelude.{◌≡◌};
ghost use Rattle.marks.specs.Numbers.{status_number};

use std::fmt;

// The statuses of the rules M8 to M14, in the order of their numbers, 0 to 6.
#[derive(Clone, Copy, Debug, PartialEq, Eq)]
pub enum Status {
    NoMarksYet,
    Paying,
    InGap,
    Complete,
    Ceased,
    Refunded,
    LumpSum,
}

impl Status {
    // Its number.
    pub fn number(self) -> u32
        ensures { result ≡ status_number self }
    {
        self as u32
    }
}

impl fmt::Display for Status {
    fn fmt<W: fmt::Write>(&self, f: &mut fmt::Formatter<W>) -> fmt::Result {
        f.write_str(match self {
            Status::NoMarksYet => "no marks yet",
            Status::Paying => "paying",
            Status::InGap => "in a gap",
            Status::Complete => "complete",
            Status::Ceased => "ceased",
            Status::Refunded => "refunded",
            Status::LumpSum => "paid by a lump sum",
        })
    }
}
