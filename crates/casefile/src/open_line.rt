// The line that is open between two chunks, in fixed memory.

ghost use Rattle.std.specs.Prelude.{[], ◌++◌, ◌≡◌, ◌≤◌, take};
ghost use Rattle.casefile.specs.declared.open_line.TheConstants.{KEPT_BYTES};

use case_line::{LISTED_BYTES, settle_line};

// The most bytes of an open line that are kept: one more than the longest line has.
const KEPT_BYTES: usize = 286;

// The bytes since the last line end. As many as the array has stand for any more: both are too long. Fixed memory: an array and how
// many of its bytes are the line's stand for a Vec, which takes from a heap. What stands after them is left over, so no caller sees
// the fields.
#[derive(Clone, Copy)]
pub struct OpenLine {
    bytes: [u8; KEPT_BYTES],
    len: usize,
    ghost fits: { len ≤ KEPT_BYTES },
}

impl OpenLine {
    ghost use Rattle.case_line.specs.Line.{line_of};
    ghost use Rattle.casefile.specs.Stream.{kept_bytes, bytes_of};

    // Nothing is open.
    pub(crate) fn new() -> OpenLine
        ensures { bytes_of result ≡ [] }
    {
        OpenLine {
            bytes: [0u8; KEPT_BYTES],
            len: 0,
        }
    }

    // What is open.
    pub(crate) fn bytes(&self) -> &[u8]
        ensures { result.now ≡ bytes_of self.now }
    {
        &self.bytes[..self.len]
    }

    // Puts the part after what is open, as far as the array goes.
    pub(crate) fn keep(&mut self, part: &[u8])
        ensures { bytes_of self.new ≡ take kept_bytes (bytes_of self.old ++ part.now) }
    {
        let from = self.len;
        let n = part.len().min(KEPT_BYTES - from);
        let to = from + n;
        self.bytes[from..to].copy_from_slice(&part[..n]);
        self.len = to;
    }

    // The listing's line for what is open and the part that ends it. Where nothing is open, the part is not copied.
    pub(crate) fn end(&mut self, part: &[u8]) -> [u8; LISTED_BYTES]
        ensures row { result ≡ line_of (bytes_of self.old ++ part.now) }
        ensures none_open { bytes_of self.new ≡ [] }
    {
        if self.len == 0 {
            return settle_line(part);
        }
        self.keep(part);
        let row = settle_line(self.bytes());
        self.len = 0;
        row
    }
}
