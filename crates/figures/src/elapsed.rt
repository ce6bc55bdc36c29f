// The marks of a contract's elapsed months, put together from runs of one mark.
ghost use Rattle.std.specs.Prelude.{[], ◌≡◌, ◌≤◌};
ghost use Rattle.figures.specs.declared.elapsed.TheConstants.{ROOM};

use crate::asked::MarkRun;

// More months than any contract has, so that too many can be asked.
const ROOM: usize = 256;

// Fixed memory: the first `count` marks are the elapsed months'.
#[derive(Clone, Copy)]
pub struct Elapsed {
    marks: [u8; ROOM],
    count: usize,
    ghost fits: { count ≤ ROOM },
}

impl Elapsed {
    ghost use Rattle.figures.specs.Elapsed.{elapsed_marks, with_run, row_marks};

    fn none() -> Self
        ensures { elapsed_marks result ≡ [] }
    {
        Elapsed {
            marks: [0u8; ROOM],
            count: 0,
        }
    }

    // One run more, as far as there is room.
    fn push_run(&mut self, run: MarkRun)
        ensures { elapsed_marks self.new ≡ with_run (elapsed_marks self.old) run }
    {
        let (mark, months) = run;
        let end = self.count + months.min(ROOM - self.count);
        self.marks[self.count..end].fill(mark);
        self.count = end;
    }

    // The marks of runs, one after another.
    pub fn of_runs(runs: &[MarkRun]) -> Self
        ensures { elapsed_marks result ≡ row_marks runs.now }
    {
        let mut elapsed = Elapsed::none();
        for run in runs {
            elapsed.push_run(*run);
        }
        elapsed
    }

    pub fn as_slice(&self) -> &[u8]
        ensures { result.now ≡ elapsed_marks self.now }
    {
        &self.marks[..self.count]
    }
}
