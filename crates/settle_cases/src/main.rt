// Settles the case file on standard input and prints its listing on standard output, in fixed memory. Where reading or
// writing fails it stops, says so on standard error and ends with status 1, and no line is printed for what was not read
// to its end.
#![tactic(auto)]

ghost use Rattle.settle_cases.specs.HandedOn.{AfterPrinting, HandedOn};

use casefile::OpenLine;
use std::fmt;
use std::io::{Read, Write};
use std::process::ExitCode;

// What stops the program before the end of its input.
#[derive(Clone, Copy, Debug, PartialEq, Eq)]
enum Failure {
    ReadFailed,
    WriteFailed,
}

impl fmt::Display for Failure {
    fn fmt<W: fmt::Write>(&self, f: &mut fmt::Formatter<W>) -> fmt::Result {
        match self {
            Failure::ReadFailed => write!(f, "reading failed"),
            Failure::WriteFailed => write!(f, "writing failed"),
        }
    }
}

// The bytes of a buffer.
const BUFFER_BYTES: usize = 65536;

// Settles what was read and prints it, as often as the buffer fills; the line that is open after it.
fn print_settled<W: Write>(
    output: &mut W,
    before: OpenLine,
    read: &[u8],
    out: &mut [u8; BUFFER_BYTES],
) -> Result<OpenLine, Failure>
    ensures { AfterPrinting before read.now result }
{
    let mut line = before;
    let mut rest = read;
    // Each turn takes as much as the buffer had room for.
    while !rest.is_empty() {
        let done = casefile::settle_chunk(line, rest, out);
        output
            .write_all(&out[..done.wrote])
            .map_err(|_| Failure::WriteFailed)?;
        line = done.after;
        rest = &rest[done.taken..];
    }
    Ok(line)
}

// Where the case file comes from and its listing goes, the buffers for both, and the line that is open between two reads.
#[derive(Drop)]
struct Settling<R, W> {
    input: R,
    output: W,
    chunk: [u8; BUFFER_BYTES],
    out: [u8; BUFFER_BYTES],
    line: OpenLine,
}

impl<R: Read, W: Write> Settling<R, W> {
    // Reads once, and settles and prints what was read. How many bytes were read: none at the end of the input.
    fn settle_next(&mut self) -> Result<usize, Failure>
        ensures { HandedOn self.old.line self.new.chunk self.new.line result }
    {
        let n = self
            .input
            .read(&mut self.chunk)
            .map_err(|_| Failure::ReadFailed)?;
        self.line = print_settled(&mut self.output, self.line, &self.chunk[..n], &mut self.out)?;
        Ok(n)
    }

    // Settles and prints the line that the end of the input ends, if one is open.
    fn print_last(&mut self) -> Result<(), Failure> {
        if let Some(row) = casefile::settle_end(self.line) {
            self.output
                .write_all(&row)
                .map_err(|_| Failure::WriteFailed)?;
        }
        Ok(())
    }

    // Reads, settles and prints until the input ends. The reads are counted, since no contract says that it does.
    fn settle_input(&mut self) -> Result<(), Failure> {
        for _ in 0..u64::MAX {
            if self.settle_next()? == 0 {
                return self.print_last();
            }
        }
        Ok(())
    }
}

fn main(rt: HostRuntime) -> ExitCode {
    let mut settling = Settling {
        input: rt.stdin(),
        output: rt.stdout(),
        chunk: [0; BUFFER_BYTES],
        out: [0; BUFFER_BYTES],
        line: casefile::no_line(),
    };
    if let Err(failure) = settling.settle_input() {
        // A message that can't be written either is given up.
        let _ = eprintln!(rt; "settle_cases: {failure}");
        return ExitCode::FAILURE;
    }
    ExitCode::SUCCESS
}
