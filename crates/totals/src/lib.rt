// A member's total over a list of contract records.
#![tactic(auto)]

ghost use Rattle.std.specs.Prelude.{◌≡◌};
ghost use Rattle.totals.specs.Total.{member_total_of, numbers_of_total};

use money::{Pence, PensionPence};
use records::Contract;
use refusals::{Refusal, Refused};

// The most records that a total is made of.
pub const MOST_RECORDS: usize = 64;

// Adds the credits of the lent records in list order. The place of a refusal is the index of the first bad record.
pub fn member_total(records: &[Contract]) -> Result<PensionPence, Refused>
    ensures { numbers_of_total result ≡ member_total_of records.now }
{
    if records.len() > MOST_RECORDS {
        return Err(Refusal::WrongLength.into());
    }
    let mut sum = PensionPence::none();
    for (index, record) in records.iter().enumerate() {
        let credit = records::check_record(*record).map_err(|refusal| Refused {
            refusal,
            place: index,
        })?;
        sum = sum.plus(credit);
    }
    Ok(sum)
}
