// The monthly tables of personal pension, option 1, as the code holds them, in 16-bit tenths of a pound.
#![tactic(auto)]

use lookup::Tables;

mod tables;

// Option 1.
pub struct Personal;

impl Tables for Personal {
    ghost option = { 1 };

    #[tactic(auto, unfolding(rates::specs::Rates::table_of))]
    fn table(pension_age: u32) -> Option<&'static [u16; 1020]> {
        match pension_age {
            65 => Some(&tables::P65),
            66 => Some(&tables::P66),
            67 => Some(&tables::P67),
            68 => Some(&tables::P68),
            _ => None,
        }
    }
}
