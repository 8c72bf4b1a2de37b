// How a program is written out: a line has the thread, the label and the next label, then the instruction.
ghost use Rattle.std.specs.Prelude.{Some};
ghost use Rattle.program.specs.Texts.{instruction_text, line_text, operand_text, operation_text};

use super::forms::{Instruction, Operand};
use super::lines::Line;
use super::operations::Operation;
use std::fmt;

impl fmt::Display for Operation {
    ghost output = { λ o. Some (operation_text o) };

    fn fmt<W: fmt::Write>(&self, f: &mut fmt::Formatter<W>) -> fmt::Result {
        f.write_str(match self {
            Operation::Sum => "add",
            Operation::Difference => "sub",
            Operation::And => "and",
            Operation::ExclusiveOr => "xor",
            Operation::Equal => "eq",
            Operation::Less => "less",
        })
    }
}

impl fmt::Display for Operand {
    ghost output = { λ o. Some (operand_text o) };

    fn fmt<W: fmt::Write>(&self, f: &mut fmt::Formatter<W>) -> fmt::Result {
        match *self {
            Operand::Register(register) => write!(f, "r{register}"),
            Operand::Constant(constant) => write!(f, "{constant}"),
        }
    }
}

impl fmt::Display for Instruction {
    ghost output = { λ i. Some (instruction_text i) };

    fn fmt<W: fmt::Write>(&self, f: &mut fmt::Formatter<W>) -> fmt::Result {
        match *self {
            Instruction::Load { register, address } => write!(f, "load r{register} {address}"),
            Instruction::Store { address, value } => write!(f, "store {address} {value}"),
            Instruction::Fence => write!(f, "fence"),
            Instruction::Compute {
                register,
                operation,
                a,
                b,
            } => write!(f, "set r{register} {operation} {a} {b}"),
            Instruction::Assert { condition } => write!(f, "assert {condition}"),
        }
    }
}

impl fmt::Display for Line {
    ghost output = { λ l. Some (line_text l) };

    fn fmt<W: fmt::Write>(&self, f: &mut fmt::Formatter<W>) -> fmt::Result {
        let Line {
            thread,
            label,
            next,
            instruction,
        } = *self;
        write!(f, "{thread} {label} {next} {instruction}")
    }
}
