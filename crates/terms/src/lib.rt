// The terms of an election, and the rules on them that need no rate.
#![tactic(auto)]

ghost use Rattle.std.specs.Prelude.{◌≡◌};
ghost use Rattle.refusals.specs.Parts.{refusal_in};
ghost use Rattle.terms.specs.Rate.{units_of};
ghost use Rattle.terms.specs.Rules.{wrong_option, wrong_pension_age, wrong_payer};
ghost use Rattle.terms.specs.RefusalParts.{first_four_refusal};

use common::MONTHS_IN_YEAR;
use refusals::Refusal;

// Age in whole years, pension age (PNPA) in years and months, 1 personal or 2 with dependant's pension, 1 member or 2 employer,
// years of monthly payments or 0 for a lump sum, pounds of pension a year. Any numbers, option and payer too, since a wrong one is a
// request like any other and is refused by its rule: an enum would ask the caller to look first.
#[derive(Clone, Copy, Debug, PartialEq, Eq)]
pub struct Terms {
    pub age: u32,
    pub pnpa_years: u32,
    pub pnpa_months: u32,
    pub option: u32,
    pub payer: u32,
    pub term: u32,
    pub amount: u32,
}

impl Terms {
    // How many units a rate is for the amount has. The contribution and the credits both go by them.
    #[inline]
    pub fn units(self) -> u32
        ensures { result ≡ units_of self }
    {
        self.amount / scheme::STEP
    }

    // The rules that need no rate, 1 to 4.
    #[tactic(auto, using(common::proofs::Tests::tests), unfolding(crate::specs::RefusalParts::first_four_refusal, crate::specs::Rules::wrong_term))]
    pub fn check(self) -> Result<(), Refusal>
        ensures { refusal_in result ≡ first_four_refusal self }
    {
        if self.wrong_option() {
            return Err(Refusal::WrongOption);
        }
        if self.wrong_pension_age() {
            return Err(Refusal::WrongPensionAge);
        }
        if scheme::LONGEST_TERM < self.term {
            return Err(Refusal::WrongTerm);
        }
        if self.wrong_payer() {
            return Err(Refusal::WrongPayer);
        }
        Ok(())
    }

    #[tactic(auto, using(common::proofs::Tests::tests), unfolding(crate::specs::Rules::wrong_option))]
    fn wrong_option(self) -> bool
        ensures { result ≡ wrong_option self }
    {
        self.option != 1 && self.option != 2
    }

    #[tactic(auto, using(common::proofs::Tests::tests), unfolding(crate::specs::Rules::wrong_pension_age))]
    fn wrong_pension_age(self) -> bool
        ensures { result ≡ wrong_pension_age self }
    {
        let year = MONTHS_IN_YEAR as u64;
        MONTHS_IN_YEAR <= self.pnpa_months
            || self.pnpa_years < 65
            || 68 * year < self.pnpa_years as u64 * year + self.pnpa_months as u64
    }

    #[tactic(auto, using(common::proofs::Tests::tests), unfolding(crate::specs::Rules::wrong_payer))]
    fn wrong_payer(self) -> bool
        ensures { result ≡ wrong_payer self }
    {
        match self.payer {
            1 => false,
            2 => 0 < self.term,
            _ => true,
        }
    }
}
