// Rounding to the nearest whole number, of a figure and its divisor, which every caller has apart, and the blend of two figures by twelfths.
// Callers go by the laws of proofs/InForce and proofs/Laws, so that another rounding can stand behind the name `nearest`.
#![tactic(auto)]

ghost use Rattle.std.specs.Prelude.{◌≡◌};
ghost use Rattle.rounding.specs.HalfEven.{half_even};
ghost use Rattle.rounding.specs.Nearest.{half_up, nearest, twelfths, blend};

use common::MONTHS_IN_YEAR;

// n ÷ d to the nearest whole number, a half going up; 0 where d is 0. Below half of d, which is rounded up here, it is 0; from there on 1,
// and one more for each further d.
pub fn half_up(n: u64, d: u64) -> u64
    ensures { result ≡ half_up n d }
{
    let half = d - d / 2;
    if d == 0 || n < half {
        return 0;
    }
    (n - half) / d + 1
}

// n ÷ d to the nearest whole number, a half going to the even one; 0 where d is 0. Above an odd number the rest counts for one more: that
// decides at a half, and nowhere else.
pub fn half_even(n: u64, d: u64) -> u64
    ensures { result ≡ half_even n d }
{
    if d == 0 {
        return 0;
    }
    let low = n / d;
    let rest = n % d;
    let odd = low % 2;
    if rest + odd <= d - rest { low } else { low + 1 }
}

// n ÷ d by the rule that contributions, whole-year credits, month values and the combining of two tables go by.
#[tactic(auto, unfolding(crate::specs::Nearest::nearest))]
pub fn nearest(n: u64, d: u64) -> u64
    ensures { result ≡ nearest n d }
{
    half_even(n, d)
}

// m twelfths of the way from lo to hi, in twelfths: (12 − m) × lo + m × hi; 12 − m is 0 where m is more than 12.
pub fn twelfths(m: u32, lo: u32, hi: u32) -> u64
    ensures { result ≡ twelfths m lo hi }
{
    let rest = MONTHS_IN_YEAR.saturating_sub(m);
    rest as u64 * lo as u64 + m as u64 * hi as u64
}

// The same whole, to the nearest.
#[tactic(auto, unfolding(crate::specs::Nearest::blend))]
pub fn blend(m: u32, lo: u32, hi: u32) -> u64
    ensures { result ≡ blend m lo hi }
{
    nearest(twelfths(m, lo, hi), MONTHS_IN_YEAR as u64)
}
