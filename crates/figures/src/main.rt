// The documents' figures, the cap decision, Quote, Settle, Schedule, the pay-off and the reduction limit at their edges, and exact halves,
// one to a line: what is asked, then what the part gives, money in pence. The figures that are proved are rows of crate `rows`;
// the file stdout holds what the others must be. Posting and the member total are run by program `posting`.
#![tactic(auto)]

mod asked;
mod cases;
mod elapsed;
mod operations;

use operations::print_table;
use std::io;

fn main(rt: HostRuntime) -> io::Result<()> {
    print_table(&rt, "000 ", &cases::DOCUMENT_000)?;
    print_table(&rt, "001 ", &cases::DOCUMENT_001)?;
    print_table(&rt, "G5 ", &cases::RATES)?;
    print_table(&rt, "", &cases::EDGES)?;
    print_table(&rt, "P ", &cases::PAY_OFFS)?;
    print_table(&rt, "H ", &cases::HALVES)?;
    print_table(&rt, "003 ", &cases::DOCUMENT_003)?;
    print_table(&rt, "L ", &cases::SEARCHES)?;
    print_table(&rt, "L ", &cases::RANGES)
}
