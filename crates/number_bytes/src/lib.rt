// Numbers as bytes, eight to a number, the low byte first.
#![tactic(auto)]

ghost use Rattle.std.specs.Prelude.{◌≡◌};
ghost use Rattle.number_bytes.specs.Stored.{stored_in};

// Stores numbers one after another at the front of a buffer; one that has not room for them all is left as it is.
pub fn put_all(out: &mut [u8], numbers: &[u64])
    ensures { out.new ≡ stored_in numbers.now out.old }
{
    // Divided, so that nothing wraps.
    if out.len() / 8 < numbers.len() {
        return;
    }
    for (i, n) in numbers.iter().enumerate() {
        let at = 8 * i;
        out[at..at + 8].copy_from_slice(&n.to_le_bytes());
    }
}
