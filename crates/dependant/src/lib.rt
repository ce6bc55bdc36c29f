// The monthly tables with dependant's pension, option 2, as the code holds them, in 16-bit tenths of a pound.
#![tactic(auto)]

use lookup::Tables;

mod tables;

// Option 2.
pub struct Dependant;

impl Tables for Dependant {
    ghost option = { 2 };

    #[tactic(auto, unfolding(rates::specs::Rates::table_of))]
    fn table(pension_age: u32) -> Option<&'static [u16; 1020]> {
        match pension_age {
            65 => Some(&tables::D65),
            66 => Some(&tables::D66),
            67 => Some(&tables::D67),
            68 => Some(&tables::D68),
            _ => None,
        }
    }
}
