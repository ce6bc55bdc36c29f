// The monthly rate of either option.
#![tactic(auto)]

ghost use Rattle.std.specs.Prelude.{◌≡◌};
ghost use Rattle.rates.specs.Rates.{rate_of};

use dependant::Dependant;
use lookup::Tables;
use personal::Personal;

// The monthly rate, in pence per £250 of pension a year; 0 where none is printed, as `lookup` gives it.
pub fn monthly_rate(option: u32, pension_age: u32, age: u32, term: u32) -> u32
    ensures { result ≡ rate_of option pension_age age term }
{
    match option {
        1 => Personal::monthly_rate(pension_age, age, term),
        2 => Dependant::monthly_rate(pension_age, age, term),
        _ => 0,
    }
}
