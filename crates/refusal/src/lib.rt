// Why a call is refused. Every layer above names its refusals by these cases, and a reader of a printed
// refusal finds its number and its layer here.
#![tactic(auto)]

ghost use Rattle.std.specs.Prelude.{◌≡◌, ◌↔◌, ◌==◌, IsTrue};
ghost use Rattle.refusal.specs.Refusals.{number_of, layer_of};

#[cfg(test)]
mod tests;
mod text;

// What went wrong. docs/refusals.md has the table.
#[derive(Clone, Copy, PartialEq, Eq, Debug)]
pub enum Refusal {
    // 128 instructions are there
    ProgramFull,
    // a field of an instruction is out of range, or an unused one is not 0
    FieldOutOfRange,
    // a thread above 7
    ThreadOutOfRange,
    // no such instruction, or another thread's
    NoSuchInstruction,
    // the thread stands at another label
    AtAnotherLabel,
    // 256 actions are there
    RunFull,
    // the store buffer does not let the thread step
    ThreadNotFree,
    // a fence while stores of its own thread wait
    FenceBeforeDrain,
    // a cell above 15
    CellOutOfRange,
    // an assert of 0
    AssertFailed,
    // 16 stores of the thread wait
    BufferFull,
    // the store buffer does not let this store drain
    DrainNotFree,
    // the store buffer tells a store that the actions do not leave waiting
    StoreNotWaiting,
    // judging while a store waits
    StoreWaits,
    // a list or a page has too few places
    TooShort,
    // a record ends before its bytes do
    RecordCutShort,
    // an unknown kind of record, a wrong length or a setup field out of range
    RecordUnknown,
    // a record stands where its kind may not
    RecordOutOfPlace,
}

// The part of the product that refuses.
#[derive(Clone, Copy, Debug, PartialEq, Eq)]
pub enum Layer {
    Program,
    Buffer,
    Replay,
    Recording,
}

impl Refusal {
    // The number by which this refusal is reported, 1 to 18. A call and no conversion, whose result would not say what it counts.
    pub fn number(self) -> u8
        ensures { result ≡ number_of self }
    {
        match self {
            Refusal::ProgramFull => 1,
            Refusal::FieldOutOfRange => 2,
            Refusal::ThreadOutOfRange => 3,
            Refusal::NoSuchInstruction => 4,
            Refusal::AtAnotherLabel => 5,
            Refusal::RunFull => 6,
            Refusal::ThreadNotFree => 7,
            Refusal::FenceBeforeDrain => 8,
            Refusal::CellOutOfRange => 9,
            Refusal::AssertFailed => 10,
            Refusal::BufferFull => 11,
            Refusal::DrainNotFree => 12,
            Refusal::StoreNotWaiting => 13,
            Refusal::StoreWaits => 14,
            Refusal::TooShort => 15,
            Refusal::RecordCutShort => 16,
            Refusal::RecordUnknown => 17,
            Refusal::RecordOutOfPlace => 18,
        }
    }

    // The layer that refuses.
    pub fn layer(self) -> Layer
        ensures { result ≡ layer_of self }
    {
        match self {
            Refusal::ProgramFull | Refusal::FieldOutOfRange => Layer::Program,
            Refusal::ThreadNotFree | Refusal::BufferFull | Refusal::DrainNotFree => Layer::Buffer,
            Refusal::RecordCutShort | Refusal::RecordUnknown | Refusal::RecordOutOfPlace =>
                Layer::Recording,
            _ => Layer::Replay,
        }
    }
}

// The equality of refusals tells whether the two are the same. This call does nothing: its contract is the theorem.
pub fn equality_tells_refusals_apart()
    ensures value { (a b : Refusal) → ⟦<Refusal as PartialEq>⟧.eq a b ≡ (number_of a == number_of b) }
    ensures same { (a b : Refusal) → IsTrue (⟦<Refusal as PartialEq>⟧.eq a b) ↔ (a ≡ b) }
{}
