// The range of every field of a line: 8 threads, 8 registers, 64 labels. A constant may be any number.
ghost use Rattle.std.specs.Prelude.{◌≡◌};
ghost use Rattle.program.specs.Ranges.{in_range, instruction_in_range, operand_in_range};

use super::forms::{Instruction, Operand};
use super::lines::Line;

impl Operand {
    // Whether it names one of the registers, or is a constant.
    pub fn in_range(self) -> bool
        ensures { result ≡ operand_in_range self }
    {
        match self {
            Operand::Register(register) => register < 8,
            Operand::Constant(_) => true,
        }
    }
}

impl Instruction {
    // Whether every register that it names is there.
    pub fn in_range(self) -> bool
        ensures { result ≡ instruction_in_range self }
    {
        match self {
            Instruction::Load { register, address } => register < 8 && address.in_range(),
            Instruction::Store { address, value } => address.in_range() && value.in_range(),
            Instruction::Fence => true,
            Instruction::Compute {
                register,
                operation: _,
                a,
                b,
            } => register < 8 && a.in_range() && b.in_range(),
            Instruction::Assert { condition } => condition.in_range(),
        }
    }
}

impl Line {
    // Whether every field is in its range.
    pub fn in_range(self) -> bool
        ensures { result ≡ in_range self }
    {
        self.thread < 8 && self.label < 64 && self.next < 64 && self.instruction.in_range()
    }
}
