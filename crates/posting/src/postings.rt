// A mark posted a number of times, and the total of the first records of a list.
ghost use Rattle.std.specs.Prelude.{◌≡◌, replicate, take};
ghost use Rattle.refusals.specs.Places.{refused_in};
ghost use Rattle.records.specs.History.{posted_all};
ghost use Rattle.posting.specs.Postings.{last_answer};
ghost use Rattle.totals.specs.Total.{member_total_of, numbers_of_total};

use money::PensionPence;
use records::Contract;
use refusals::Refused;

// Posts a mark n times. Gives the answer to the last posting: the one before, where there is none.
pub fn post_times(
    c: &mut Contract,
    before: Result<(), Refused>,
    mark: u8,
    n: u8,
) -> Result<(), Refused>
    ensures answer { refused_in result ≡ last_answer (refused_in before) c.old (replicate n mark) }
    ensures record_left { c.new ≡ posted_all c.old (replicate n mark) }
{
    let mut last = before;
    for _ in 0..n {
        last = records::post(c, mark);
    }
    last
}

// The total of the first n records, or of all where n is more. 65 are one more than a total takes, so that 14 can be met.
pub fn total_of_first(records: &[Contract; 65], n: usize) -> Result<PensionPence, Refused>
    ensures { numbers_of_total result ≡ member_total_of (take n records.now) }
{
    let end = n.min(65);
    totals::member_total(&records[..end])
}
