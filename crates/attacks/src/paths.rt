// The code of a program as a graph: an edge leads from each line to the lines that may run next in its thread, but for
// fences, so that a chain of edges is a path with no fence behind its first line.
ghost use Rattle.std.specs.Prelude.{◌≡◌, length};
ghost use Rattle.program.specs.Programs.{lines_of};
ghost use Rattle.attacks.specs.Attacks.{has, is_load, is_store};
ghost use Rattle.attacks.specs.PathLaws.{paths_laws};
ghost use Rattle.attacks.specs.Paths.{goes_on};

use graph::Graph;
use program::{Instruction, Program};

// A program, looked at as that graph.
#[derive(Drop)]
pub struct CodePaths<'a> {
    pub program: &'a Program,
}

impl Graph for CodePaths<'_> {
    ghost size = { λ g. length (lines_of g.program.now) };

    ghost joins = { λ g m n. goes_on (lines_of g.program.now) m n };

    ghost laws = { paths_laws };

    fn nodes(&self) -> usize {
        self.program.len()
    }

    fn edge(&self, from: usize, to: usize) -> bool {
        let (Some(line), Some(next)) = (self.program.line(from), self.program.line(to)) else {
            return false;
        };
        line.thread == next.thread
            && line.next == next.label
            && !matches!(next.instruction, Instruction::Fence)
    }
}

// Whether there is a line of that number, and it is a store. This and the next differ in a pattern, which no parameter can be.
pub fn is_store(program: &Program, number: usize) -> bool
    ensures { result ≡ has is_store (lines_of program.now) number }
{
    program.line(number).is_some_and(|line| matches!(line.instruction, Instruction::Store { .. }))
}

// Whether there is a line of that number, and it is a load.
pub fn is_load(program: &Program, number: usize) -> bool
    ensures { result ≡ has is_load (lines_of program.now) number }
{
    program.line(number).is_some_and(|line| matches!(line.instruction, Instruction::Load { .. }))
}
