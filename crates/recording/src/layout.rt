// Which record some bytes begin with.
ghost use Rattle.std.specs.Prelude.{◌≡◌, cond, length, nat_le, Some, Ok, Err};
ghost use Rattle.std.specs.Option.{ok_or};
ghost use Rattle.refusal.specs.declared.Refusal.TheVariants.{RecordCutShort, RecordUnknown};
ghost use Rattle.recording.specs.Layout.{byte, first_record, instruction as instruction_shape, kind_at, setup as setup_shape, shaped, size as record_size};

use super::records::{Fields, Kind, Record, Setup};
use refusal::Refusal;

impl Record {
    // Its whole length.
    pub fn size(self) -> usize
        ensures { result ≡ record_size self }
    {
        match self {
            Record::Setup(_) => 8,
            Record::Instruction(_) => 20,
            Record::Run { .. } | Record::Drain { .. } => 6,
        }
    }
}

// The kind of a number.
impl TryFrom<u8> for Kind {
    type Error = Refusal;

    ghost try_from_gives = { λ number kind. kind ≡ ok_or (kind_at number) RecordUnknown };

    fn try_from(number: u8) -> Result<Kind, Refusal> {
        match number {
            0 => Ok(Kind::Direct),
            1 => Ok(Kind::Queue),
            2 => Ok(Kind::PerCell),
            _ => Err(Refusal::RecordUnknown),
        }
    }
}

// The record that the bytes begin with. Refused where fewer than four bytes are there (16), where the length and the kind are those
// of no record (17), where the rest of it is not there (16), and where a field of a setup is out of range (17), tested in that order.
pub fn first_record(bytes: &[u8]) -> Result<Record, Refusal>
    ensures { result ≡ first_record bytes.now }
{
    let [l0, l1, k0, k1, rest @ ..] = bytes else {
        return Err(Refusal::RecordCutShort);
    };
    match (
        u16::from_le_bytes([*l0, *l1]),
        u16::from_le_bytes([*k0, *k1]),
    ) {
        (8, 1) => setup(rest),
        (20, 2) => instruction(rest),
        (6, 3) => pair(rest).map(|(thread, instruction)| Record::Run {
            thread,
            instruction,
        }),
        (6, 4) => pair(rest).map(|(thread, cell)| Record::Drain { thread, cell }),
        _ => Err(Refusal::RecordUnknown),
    }
}

fn setup(body: &[u8]) -> Result<Record, Refusal>
    ensures { result ≡ shaped (Some setup_shape) body.now }
{
    let [kind, zero, s0, s1, ..] = body else {
        return Err(Refusal::RecordCutShort);
    };
    if *zero != 0 {
        return Err(Refusal::RecordUnknown);
    }
    let kind = Kind::try_from(*kind)?;
    let strong = u16::from_le_bytes([*s0, *s1]);
    Ok(Record::Setup(Setup { kind, strong }))
}

fn instruction(body: &[u8]) -> Result<Record, Refusal>
    ensures { result ≡ shaped (Some instruction_shape) body.now }
{
    let [
        thread,
        label,
        next,
        form,
        register,
        operation,
        tag_a,
        tag_b,
        operands @ ..,
    ] = body
    else {
        return Err(Refusal::RecordCutShort);
    };
    let [a0, a1, a2, a3, b0, b1, b2, b3, ..] = operands else {
        return Err(Refusal::RecordCutShort);
    };
    Ok(Record::Instruction(Fields {
        thread: *thread,
        label: *label,
        next: *next,
        form: *form,
        register: *register,
        operation: *operation,
        tag_a: *tag_a,
        tag_b: *tag_b,
        a: u32::from_le_bytes([*a0, *a1, *a2, *a3]),
        b: u32::from_le_bytes([*b0, *b1, *b2, *b3]),
    }))
}

// The two bytes of a run or a drain.
fn pair(body: &[u8]) -> Result<(u8, u8), Refusal>
    ensures { result ≡ cond (nat_le 2 (length body.now)) (Ok (byte body.now 0, byte body.now 1)) (Err RecordCutShort) }
{
    let [first, second, ..] = body else {
        return Err(Refusal::RecordCutShort);
    };
    Ok((*first, *second))
}
