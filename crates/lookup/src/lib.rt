// How a monthly table is read: the entry for an age and a term, and the rate in pence that it stands for. The tables hold 16-bit tenths of a
// pound, and a rate is made pence once, as it leaves. A table that is lent as a constant stays read-only data of the machine code, and an
// entry is one read of it.
#![tactic(auto)]

ghost use Rattle.std.specs.Prelude.{◌≡◌, ℕ};
ghost use Rattle.scheme.specs.Scheme.{first_age, print_margin};
ghost use Rattle.rates.specs.Rates.{cell_of, rate_of, table_of};
ghost use Rattle.lookup.specs.Narrow.{tenths_in_pence};
ghost use Rattle.lookup.specs.Tables.{lent_in_pence};

// The entry of a table for an age and a term; 0 where it has no line for the age or no place for the term.
#[tactic(auto, unfolding(rates::specs::Rates::cell_of))]
pub fn entry(table: &[u16; 1020], age: u32, term: u32) -> u16
    ensures { result ≡ cell_of first_age print_margin table.now age term }
{
    match (age, term) {
        (16..=66, 1..=20) => table[(age as usize - 16) * 20 + (term as usize - 1)],
        _ => 0,
    }
}

// A rate in tenths of a pound, in pence: widened first, so that any 16-bit number of tenths has its pence.
pub fn tenths_in_pence(tenths: u16) -> u32
    ensures { result ≡ tenths_in_pence tenths }
{
    tenths as u32 * 10
}

// The rate of a table for an age and a term, in pence; 0, which the table holds where it prints none, without a table too.
pub fn rate_in(table: Option<&[u16; 1020]>, age: u32, term: u32) -> u32
    ensures { result ≡ cell_of first_age print_margin (lent_in_pence table.entry) age term }
{
    match table {
        Some(table) => tenths_in_pence(entry(table, age, term)),
        None => 0,
    }
}

// The monthly tables of an option.
pub trait Tables {
    ghost option: { ℕ };

    // The table for a pension age.
    fn table(pension_age: u32) -> Option<&'static [u16; 1020]>
        ensures { lent_in_pence result ≡ table_of option pension_age };

    // The monthly rate in pence; 0 where none is printed, as the tables hold it. It is a number and no Option: a row of whole-year credits
    // divides by rates that are all known to be printed, and would unwrap each.
    #[tactic(auto, unfolding(rates::specs::Rates::rate_of, rates::specs::Rates::rate_by))]
    fn monthly_rate(pension_age: u32, age: u32, term: u32) -> u32
        ensures { result ≡ rate_of option pension_age age term }
    {
        rate_in(Self::table(pension_age), age, term)
    }
}
