// The five forms of an instruction, with the operands inside.
ghost use Rattle.std.specs.Prelude.{◌≡◌};

use super::operations::Operation;

// What an instruction works on: a register of its thread, or a number.
#[derive(Clone, Copy, PartialEq, Eq, Debug)]
pub enum Operand {
    Register(u8),
    Constant(u32),
}

#[derive(Clone, Copy, PartialEq, Eq, Debug)]
pub enum Instruction {
    // the register takes the value of the cell at the address
    Load {
        register: u8,
        address: Operand,
    },
    // the value goes to the cell at the address, by way of the store buffer
    Store {
        address: Operand,
        value: Operand,
    },
    // runs only once no store of the thread waits
    Fence,
    // the register takes the result of the operation
    Compute {
        register: u8,
        operation: Operation,
        a: Operand,
        b: Operand,
    },
    // runs only if the condition is not 0
    Assert {
        condition: Operand,
    },
}

impl Instruction {
    ghost use Rattle.program.specs.declared.forms.Instruction.TheVariants.{Load, Store};
    ghost use Rattle.program.specs.declared.forms.Operand.TheVariants.{Constant};

    // A load of the cell of that number.
    pub fn load(register: u8, cell: u32) -> Instruction
        ensures { result ≡ Load register (Constant cell) }
    {
        Instruction::Load {
            register,
            address: Operand::Constant(cell),
        }
    }

    // A store of a number to the cell of that number.
    pub fn store(cell: u32, value: u32) -> Instruction
        ensures { result ≡ Store (Constant cell) (Constant value) }
    {
        Instruction::Store {
            address: Operand::Constant(cell),
            value: Operand::Constant(value),
        }
    }
}
