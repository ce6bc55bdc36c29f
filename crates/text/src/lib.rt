// Numbers in fields of text, read and written.
#![tactic(auto)]

ghost use Rattle.std.specs.Prelude.{◌≡◌, ◌+◌, ◌<◌, ◌≤◌, ◌++◌, ◌==◌, not, length, take, drop, position};
ghost use Rattle.text.specs.Field.{digits_of, field_of};
ghost use Rattle.text.specs.Column.{glyph_of, column_of};
ghost use Rattle.text.specs.Steps.{put_at};

const SPACE: u8 = b' ';

const ZERO: u8 = b'0';

// Where the spaces in front end; nowhere in a part of spaces alone.
fn first_said(part: &[u8]) -> Option<usize>
    ensures { result ≡ position (λ b. not (b == 32)) part.now }
{
    part.iter().position(|b| *b != SPACE)
}

// The number that a part says, if all its bytes are digits.
fn digits_in(part: &[u8]) -> Option<u32>
    ensures { result ≡ digits_of 0 part.now }
{
    let mut value: u32 = 0;
    for b in part {
        // A tenth digit might not fit 32 bits.
        if !b.is_ascii_digit() || value > 99999999 {
            return None;
        }
        value = value * 10 + (*b - ZERO) as u32;
    }
    Some(value)
}

// The number that the whole of a part says, as one field.
pub fn number_in(part: &[u8]) -> Option<u32>
    ensures { result ≡ field_of part.now }
{
    let start = first_said(part)?;
    let said = &part[start..];
    if said[0] == ZERO {
        return if said.len() == 1 { Some(0) } else { None };
    }
    digits_in(said)
}

// The last digit of what is left of a number; a space where nothing is left.
#[tactic(auto, using(common::proofs::Tests::tests), unfolding(crate::specs::Column::glyph_of))]
fn glyph(left: u64) -> u8
    ensures { result ≡ glyph_of left }
{
    if left == 0 {
        SPACE
    } else {
        ZERO + (left % 10) as u8
    }
}

// v in columns that are all its own, filled from the last digit to the first.
fn put_digits(columns: &mut [u8], v: u64)
    requires { 0 < length columns.old }
    ensures { columns.new ≡ column_of (length columns.old) v }
{
    let last = columns.len() - 1;
    columns[last] = ZERO + (v % 10) as u8;
    let mut left = v / 10;
    for j in (0..last).rev() {
        columns[j] = glyph(left);
        left /= 10;
    }
}

// v in the columns from at, where all of them are there; else nothing is written.
pub fn put_number(out: &mut [u8], at: usize, width: usize, v: u64)
    ensures { out.new ≡ put_at out.old at (column_of width v) }
{
    if width > 0 && at <= out.len() && width <= out.len() - at {
        put_digits(&mut out[at..at + width], v);
    }
}
