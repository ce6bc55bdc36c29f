// The lump sum of Table S, in pence per £250 of pension a year. The monthly tables are in `personal` and `dependant`.
#![tactic(auto)]

ghost use Rattle.std.specs.Prelude.{◌≡◌};
ghost use Rattle.rates.specs.Rates.{lump_rate_of};

mod lump_sum;

// The lump sum for an option at a whole pension age and an age; 0 where none is printed. It is a number and no Option, as the rules have
// it; `election` asks whether there is one.
#[tactic(auto, unfolding(crate::specs::Rates::lump_rate_of, crate::specs::Rates::lump_column))]
pub fn lump_sum_rate(option: u32, pension_age: u32, age: u32) -> u32
    ensures { result ≡ lump_rate_of option pension_age age }
{
    let sums = match option {
        1 => &lump_sum::PERSONAL,
        2 => &lump_sum::DEPENDANT,
        _ => return 0,
    };
    match (pension_age, age) {
        (65..=68, 16..=64) => sums[age as usize - 16],
        _ => 0,
    }
}
