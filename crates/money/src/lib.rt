// Pension a year and contribution, both in pence. Each has its own arithmetic, and nothing adds one to the other; what a contribution
// buys and what a pension costs are the two ways between them.
#![tactic(auto)]

ghost use Rattle.std.specs.Prelude.{◌≡◌, ℕ, refl, ◌+◌, ◌*◌, ◌-◌, ◌/◌, ◌<◌, ◌^◌, ltb};
ghost use Rattle.rounding.specs.Nearest.{half_up, nearest, blend, combine};
ghost use Rattle.common.specs.Calendar.{months_in_year};
ghost use Rattle.scheme.specs.Scheme.{pounds_in_pence};
ghost use Rattle.money.specs.Money.{pension};
ghost use Rattle.money.specs.Contribution.{contribution};

use common::MONTHS_IN_YEAR;

// Pence of one kind, with the arithmetic that is the same for either.
pub trait Pence: Copy {
    // so many pence of the kind, and how many a figure has
    ghost of: { ℕ → Self };

    ghost pence: { Self → ℕ };

    fn of_pence(n: u64) -> Self
        ensures { result ≡ of n };

    fn in_pence(self) -> u64
        ensures { result ≡ pence self };

    // a figure is its pence, whatever their number
    ghost whole: { (x : Self) → of (pence x) ≡ x };

    ghost counted: { (n : ℕ) → pence (of n) ≡ n };

    final fn none() -> Self
        ensures { result ≡ of 0 }
    {
        Self::of_pence(0)
    }

    // m twelfths of the way to another.
    final fn blend(self, other: Self, m: u32) -> Self
        requires { (pence self < 2 ^ 32) × (pence other < 2 ^ 32) }
        ensures { result ≡ of (blend m (pence self) (pence other)) }
    {
        let lower = self.in_pence() as u32;
        let upper = other.in_pence() as u32;
        Self::of_pence(rounding::blend(m, lower, upper))
    }

    // The lower table's figure, combined with the upper's where the pension age has m odd months.
    final fn combine(self, upper: Self, m: u32) -> Self
        requires { (pence self < 2 ^ 32) × (pence upper < 2 ^ 32) }
        ensures { result ≡ of (combine m (pence self) (pence upper)) }
    {
        if m == 0 { self } else { self.blend(upper, m) }
    }
}

// Pence of pension a year.
#[derive(Clone, Copy, Debug, PartialEq, Eq, PartialOrd, Ord, Default)]
pub struct PensionPence(pub u64);

// Pence of contribution: a month's, or the whole lump sum.
#[derive(Clone, Copy, Debug, PartialEq, Eq, PartialOrd, Ord, Default)]
pub struct ContributionPence(pub u64);

impl PensionPence {
    // An amount in whole pounds a year.
    pub fn of_pounds(pounds: u32) -> Self
        ensures { result ≡ pension (pounds_in_pence pounds) }
    {
        PensionPence(pounds as u64 * 100)
    }

    // A quotient in pence, a half penny going up; nothing where the divisor is 0.
    pub fn of_quotient(numerator: u64, divisor: u64) -> Self
        ensures { result ≡ pension (half_up numerator divisor) }
    {
        PensionPence(rounding::half_up(numerator, divisor))
    }

    pub fn plus(self, other: PensionPence) -> Self
        requires { self.0 + other.0 < 2 ^ 64 }
        ensures { result ≡ pension (self.0 + other.0) }
    {
        PensionPence(self.0 + other.0)
    }

    // What is left of this when another is taken away: nothing where the other is more.
    pub fn less(self, other: PensionPence) -> Self
        ensures { result ≡ pension (self.0 - other.0) }
    {
        PensionPence(self.0.saturating_sub(other.0))
    }

    // `>` says this of two figures; this says it of the pence inside, of which the contracts of callers speak.
    pub fn is_above(self, other: PensionPence) -> bool
        ensures { result ≡ ltb other.0 self.0 }
    {
        self > other
    }

    // How many whole steps fit into this; none where the step is nothing.
    pub fn whole_steps(self, step: PensionPence) -> u64
        ensures { result ≡ self.0 / step.0 }
    {
        self.0.checked_div(step.0).unwrap_or(0)
    }

    // This times so many thousandths, a half penny going up.
    #[tactic(auto, using(common::proofs::Product::product_fits))]
    pub fn increased(self, thousandths: u32) -> Self
        requires { self.0 < 2 ^ 32 }
        ensures { result ≡ pension (half_up (self.0 * thousandths) 1000) }
    {
        PensionPence(rounding::half_up(self.0 * thousandths as u64, 1000))
    }

    // What it costs at a rate in twelfths of a penny for each unit of so much pension, a half penny going up.
    pub fn costs(self, unit: PensionPence, twelfths: u64) -> ContributionPence
        requires { (self.0 * twelfths < 2 ^ 64) × (unit.0 < 2 ^ 32) }
        ensures { result ≡ contribution (half_up (self.0 * twelfths) (months_in_year * unit.0)) }
    {
        ContributionPence(rounding::half_up(self.0 * twelfths, MONTHS_IN_YEAR as u64 * unit.0))
    }
}

impl Pence for PensionPence {
    ghost of = { pension };

    ghost pence = { λ x. x.0 };

    ghost whole = { λ x. refl };

    ghost counted = { λ n. refl };

    fn of_pence(n: u64) -> Self {
        PensionPence(n)
    }

    fn in_pence(self) -> u64 {
        self.0
    }
}

impl ContributionPence {
    // A number of units at a rate in pence for each.
    #[tactic(auto, using(common::proofs::Product::product_fits))]
    pub fn of_units(units: u32, rate: u32) -> Self
        ensures { result ≡ contribution (units * rate) }
    {
        ContributionPence(units as u64 * rate as u64)
    }

    // The same contribution paid n times.
    #[tactic(auto, using(common::proofs::Product::product_fits))]
    pub fn times(self, n: u32) -> Self
        requires { self.0 < 2 ^ 32 }
        ensures { result ≡ contribution (self.0 * n) }
    {
        ContributionPence(self.0 * n as u64)
    }

    // The pension a year that it buys at a rate in pence for each unit of so much pension.
    pub fn buys(self, unit: PensionPence, rate: u32) -> PensionPence
        requires { self.0 * unit.0 < 2 ^ 64 }
        ensures { result ≡ pension (nearest (self.0 * unit.0) rate) }
    {
        PensionPence(rounding::nearest(self.0 * unit.0, rate as u64))
    }
}

impl Pence for ContributionPence {
    ghost of = { contribution };

    ghost pence = { λ x. x.0 };

    ghost whole = { λ x. refl };

    ghost counted = { λ n. refl };

    fn of_pence(n: u64) -> Self {
        ContributionPence(n)
    }

    fn in_pence(self) -> u64 {
        self.0
    }
}
