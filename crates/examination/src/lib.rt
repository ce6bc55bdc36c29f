// Whether terms and marks are refused, and by which rule first; or what a settlement of them goes by.
#![tactic(auto)]

ghost use Rattle.std.specs.Prelude.{◌≡◌, IfOk};
ghost use Rattle.refusals.specs.Places.{refused_in};
ghost use Rattle.examination.specs.Refusal.{settle_refusal};
ghost use Rattle.examination.specs.Examine.{ExaminationOf};

use election::Election;
use marks::Status;
use money::{Pence, PensionPence};
use refusals::Refused;
use terms::Terms;

// What a settlement of terms and marks that no rule refuses goes by.
#[derive(Clone, Copy)]
pub struct Examined {
    pub election: Election,
    pub status: Status,
    pub payments: usize,
}

// The terms are looked at first, as a quote with nothing existing; then the marks.
#[inline(always)]
#[tactic(auto, using(common::proofs::Tests::tests, refusals::proofs::Numbers::refusal_positive, crate::proofs::Laws::refused_by_terms, crate::proofs::Laws::refused_by_marks, marks::proofs::Term::marks_number, marks::proofs::Term::marks_place))]
pub fn examine(t: Terms, marks: &[u8]) -> Result<Examined, Refused>
    ensures refusal { refused_in result ≡ settle_refusal t marks.now }
    ensures found { IfOk result (λ e. ExaminationOf t marks.now e) }
{
    let election = Election::new(t, PensionPence::none())?;
    let reading = marks::read_marks(marks, scheme::OPEN_MONTHS, t.term)?;
    Ok(Examined {
        election,
        status: marks::status(t.term, reading),
        payments: marks::payments(t.term, reading),
    })
}
