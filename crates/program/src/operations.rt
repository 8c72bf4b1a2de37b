// The six operations on 32-bit numbers.
ghost use Rattle.std.specs.Prelude.{◌≡◌, Some};
ghost use Rattle.program.specs.Operations.{operation_of, result_of};
ghost use Rattle.program.specs.Texts.{unknown_text};

use std::error::Error;
use std::fmt;

#[derive(Clone, Copy, PartialEq, Eq, Debug)]
pub enum Operation {
    Sum,
    Difference,
    And,
    ExclusiveOr,
    Equal,
    Less,
}

// A number that names no operation.
#[derive(Clone, Copy, PartialEq, Eq, Debug)]
pub struct UnknownOperation {
    pub number: u8,
}

impl Operation {
    // What the operation makes of two numbers.
    pub fn apply(self, a: u32, b: u32) -> u32
        ensures { result ≡ result_of self a b }
    {
        match self {
            Operation::Sum => a.wrapping_add(b),
            Operation::Difference => a.wrapping_sub(b),
            Operation::And => a & b,
            Operation::ExclusiveOr => a ^ b,
            Operation::Equal => u32::from(a == b),
            Operation::Less => u32::from(a < b),
        }
    }
}

// The operations are numbered from 0 in the order above.
impl TryFrom<u8> for Operation {
    type Error = UnknownOperation;

    ghost try_from_gives = { λ n r. r ≡ operation_of n };

    fn try_from(number: u8) -> Result<Operation, UnknownOperation> {
        match number {
            0 => Ok(Operation::Sum),
            1 => Ok(Operation::Difference),
            2 => Ok(Operation::And),
            3 => Ok(Operation::ExclusiveOr),
            4 => Ok(Operation::Equal),
            5 => Ok(Operation::Less),
            _ => Err(UnknownOperation { number }),
        }
    }
}

impl fmt::Display for UnknownOperation {
    ghost output = { λ u. Some (unknown_text u) };

    fn fmt<W: fmt::Write>(&self, f: &mut fmt::Formatter<W>) -> fmt::Result {
        write!(f, "no operation has the number {}", self.number)
    }
}

impl Error for UnknownOperation {}
