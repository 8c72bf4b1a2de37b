// The line of a program that the fields of an instruction record say.
ghost use Rattle.std.specs.Prelude.{◌≡◌};
ghost use Rattle.std.specs.Option.{ok_or};
ghost use Rattle.refusal.specs.declared.Refusal.TheVariants.{FieldOutOfRange};
ghost use Rattle.recording.specs.Meaning.{instruction_at, line_at, operand_at};

use super::records::Fields;
use program::{Instruction, Line, Operand, Operation};
use refusal::Refusal;

// The operand of a tag: 0 for one of the eight registers, 1 for a constant. A conversion would be from a pair, which is no plainer.
fn operand(tag: u8, value: u32) -> Option<Operand>
    ensures { result ≡ operand_at tag value }
{
    match tag {
        0 if value < 8 => Some(Operand::Register(value as u8)),
        1 => Some(Operand::Constant(value)),
        _ => None,
    }
}

// The line, if its form, operation and tags are known and every field that its form does not use is 0.
impl TryFrom<Fields> for Line {
    type Error = Refusal;

    ghost try_from_gives = { λ fields line. line ≡ ok_or (line_at fields) FieldOutOfRange };

    fn try_from(fields: Fields) -> Result<Line, Refusal> {
        let instruction = fields.instruction().ok_or(Refusal::FieldOutOfRange)?;
        Ok(Line::new(fields.thread, fields.label, fields.next, instruction))
    }
}

impl Fields {
    // The instruction of its form. A field that the form does not use is 0.
    fn instruction(self) -> Option<Instruction>
        ensures { result ≡ instruction_at self.form self }
    {
        let a = (self.tag_a, self.a);
        let b = (self.tag_b, self.b);
        match (self.form, self.register, self.operation, a, b) {
            (0, register, 0, (tag, value), (0, 0)) => Some(Instruction::Load {
                register,
                address: operand(tag, value)?,
            }),
            (1, 0, 0, (tag_a, a), (tag_b, b)) => Some(Instruction::Store {
                address: operand(tag_a, a)?,
                value: operand(tag_b, b)?,
            }),
            (2, 0, 0, (0, 0), (0, 0)) => Some(Instruction::Fence),
            (3, register, number, (tag_a, a), (tag_b, b)) => Some(Instruction::Compute {
                register,
                operation: Operation::try_from(number).ok()?,
                a: operand(tag_a, a)?,
                b: operand(tag_b, b)?,
            }),
            (4, 0, 0, (tag, value), (0, 0)) => Some(Instruction::Assert {
                condition: operand(tag, value)?,
            }),
            _ => None,
        }
    }
}
