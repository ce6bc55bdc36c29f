// The case file: each of its lines settled, as a line of the listing, in chunks of any size and fixed memory.
#![tactic(auto)]

ghost use Rattle.std.specs.Prelude.{[], ◌≡◌, eqb, position};
ghost use Rattle.casefile.specs.Stream.{bytes_of, numbers_of_chunk, chunk_of, end_of};

mod open_line;

use case_line::{LISTED_BYTES, settle_line};
pub use open_line::OpenLine;

// How many bytes of the chunk were worked through, how many were written into the lent buffer, and the line that is open.
#[derive(Clone, Copy)]
pub struct ChunkSettled {
    pub after: OpenLine,
    pub taken: usize,
    pub wrote: usize,
}

// Where the first line end stands.
fn line_end(bytes: &[u8]) -> Option<usize>
    ensures { result ≡ position (λ b. eqb b 10) bytes.now }
{
    bytes.iter().position(|b| *b == b'\n')
}

// No line is open: the start of a file.
pub fn no_line() -> OpenLine
    ensures { bytes_of result ≡ [] }
{
    OpenLine::new()
}

// Works through a chunk to its end, or up to the line end after which out has no room for another line; without room for one, takes
// nothing.
pub fn settle_chunk(before: OpenLine, chunk: &[u8], out: &mut [u8]) -> ChunkSettled
    ensures { numbers_of_chunk result out.new ≡ chunk_of (bytes_of before) chunk.now out.old }
{
    let mut line = before;
    let mut rest = chunk;
    let mut wrote = 0;
    'lines: while !rest.is_empty() && LISTED_BYTES <= out.len() - wrote {
        match line_end(rest) {
            Some(end) => {
                let row = line.end(&rest[..end]);
                let next = wrote + LISTED_BYTES;
                out[wrote..next].copy_from_slice(&row);
                wrote = next;
                rest = &rest[end + 1..];
            }
            None => {
                line.keep(rest);
                rest = &[];
            }
        }
    }
    ChunkSettled {
        after: line,
        taken: chunk.len() - rest.len(),
        wrote,
    }
}

// The line that the end of the file ends, if one is open.
pub fn settle_end(before: OpenLine) -> Option<[u8; LISTED_BYTES]>
    ensures { result ≡ end_of (bytes_of before) }
{
    match before.bytes() {
        [] => None,
        line => Some(settle_line(line)),
    }
}
