// Where a run of paid months ends, found eight marks at a time.
#![tactic(auto)]

ghost use Rattle.std.specs.Prelude.{◌≡◌, ◌+◌, ◌==◌, drop};
ghost use Rattle.std.specs.List.{prefix_len};
ghost use Rattle.paid_runs.specs.PaidRun.{paid_run};

// Eight paid marks, read as one number.
const EIGHT_PAID: u64 = 0x0101_0101_0101_0101;

// How many 1s stand first, looked at one by one.
fn ones_first(marks: &[u8]) -> usize
    ensures { result ≡ prefix_len (λ m. m == 1) marks.now }
{
    marks.iter().take_while(|m| **m == 1).count()
}

// How many paid months stand first. Eights of them are passed as long as they go on: each is compared as one number.
fn paid_first(marks: &[u8]) -> usize
    ensures { result ≡ paid_run marks.now }
{
    let mut rest = marks;
    while let Some((eight, behind)) = rest.split_first_chunk::<8>() {
        let number = u64::from_le_bytes(*eight);
        if number != EIGHT_PAID {
            break;
        }
        rest = behind;
    }
    marks.len() - rest.len() + ones_first(rest)
}

// Where the paid months that stand from an index on end.
pub fn run_end(marks: &[u8], from: usize) -> usize
    ensures { result ≡ from + paid_run (drop from marks.now) }
{
    if from >= marks.len() {
        return from;
    }
    from + paid_first(&marks[from..])
}
