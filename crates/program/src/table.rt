// The table of lines that a program is. What holds of every program is said here, in the type.
ghost use Rattle.std.specs.Prelude.{◌≡◌, ◌≤◌, true, [], length, IfSome, IfOk, vec_len, vec_capacity};
ghost use Rattle.std.specs.List.{All, slice_get};
ghost use Rattle.program.specs.Ranges.{in_range};

use super::lines::Line;
use refusal::Refusal;
use std::alloc::{AllocError, Global};

// the most lines that a program has
const MOST: usize = 128;

#[derive(Drop)]
pub struct Program {
    lines: Vec<Line>,
    // room for every line was had when the program was made
    ghost room: { 128 ≤ vec_capacity lines },
    ghost few: { vec_len lines ≤ 128 },
    ghost ranged: { All (λ l. in_range l ≡ true) lines.items },
}

impl Program {
    ghost use Rattle.program.specs.Programs.{lines_of, Added};

    // A program with no line. This is the one call that may find no memory.
    pub fn new(heap: Global) -> Result<Program, AllocError>
        ensures { IfOk result (λ p. lines_of p ≡ []) }
    {
        let lines = Vec::with_capacity(heap, MOST)?;
        Ok(Program { lines })
    }

    // Adds a line behind the others and answers its number. Refused where 128 lines are there, then where a field is
    // out of range; the program is then as before.
    pub fn add(&mut self, line: Line) -> Result<usize, Refusal>
        ensures { Added (lines_of self.old) line result (lines_of self.new) }
    {
        let number = self.lines.len();
        if number >= MOST {
            return Err(Refusal::ProgramFull);
        }
        if !line.in_range() {
            return Err(Refusal::FieldOutOfRange);
        }
        self.lines.push_reserved(line);
        Ok(number)
    }

    // How many lines there are.
    pub fn len(&self) -> usize
        ensures value { result ≡ length (lines_of self.now) }
        ensures bound { result ≤ 128 }
    {
        self.lines.len()
    }

    // The line of that number, if there is one. Each of its fields is in range.
    pub fn line(&self, number: usize) -> Option<Line>
        ensures value { result ≡ slice_get (lines_of self.now) number }
        ensures ranged { IfSome result (λ l. in_range l ≡ true) }
    {
        self.lines.get(number).copied()
    }

    // All lines, in the order in which they were added. Each of their fields is in range.
    pub fn lines(&self) -> &[Line]
        ensures value { result.now ≡ lines_of self.now }
        ensures bound { length result.now ≤ 128 }
        ensures ranged { All (λ l. in_range l ≡ true) result.now }
    {
        &self.lines
    }
}
