// A thread's turn to run an instruction: what the first tests of a run find.
ghost use Rattle.std.specs.Prelude.{◌≡◌, ◌<◌, true};
ghost use Rattle.program.specs.Ranges.{in_range};

use program::Line;

#[derive(Clone, Copy)]
pub struct Turn {
    pub thread: usize,
    // the number of the instruction
    pub number: usize,
    pub line: Line,
    ghost below: { thread < 8 },
    ghost ranged: { in_range line ≡ true },
}
