// One line of a program: an instruction, the thread that runs it, and where in that thread it stands.
ghost use Rattle.std.specs.Prelude.{◌≡◌};

use super::forms::Instruction;

#[derive(Clone, Copy, PartialEq, Eq, Debug)]
pub struct Line {
    pub thread: u8,
    // where the instruction stands; other instructions may stand there too
    pub label: u8,
    // where the thread stands once it has run
    pub next: u8,
    pub instruction: Instruction,
}

impl Line {
    // The line of these parts. Any of them may be out of range.
    pub fn new(thread: u8, label: u8, next: u8, instruction: Instruction) -> Line
        ensures { result ≡ record { thread = thread; label = label; next = next; instruction = instruction } }
    {
        Line {
            thread,
            label,
            next,
            instruction,
        }
    }
}
