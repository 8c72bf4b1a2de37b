// The records of a recording.

// The store buffer of the board that was recorded.
#[derive(Clone, Copy, PartialEq, Eq, Debug)]
pub enum Kind {
    Direct,
    Queue,
    PerCell,
}

// The store buffer and its strong cells: bit c of the mask for cell c.
#[derive(Clone, Copy, PartialEq, Eq, Debug)]
pub struct Setup {
    pub kind: Kind,
    pub strong: u16,
}

// The fields of an instruction as they stand in its record, in their order. They may be out of range, and stay bytes: from any bytes a
// record is read back, so a case for each number would need one more for the numbers that mean nothing, and be no plainer.
#[derive(Clone, Copy, PartialEq, Eq, Debug)]
pub struct Fields {
    pub thread: u8,
    pub label: u8,
    pub next: u8,
    // 0 load, 1 store, 2 fence, 3 compute, 4 assert
    pub form: u8,
    pub register: u8,
    // 0 sum, 1 difference, 2 and, 3 exclusive or, 4 equal, 5 less
    pub operation: u8,
    // 0 a register, 1 a constant
    pub tag_a: u8,
    pub tag_b: u8,
    pub a: u32,
    pub b: u32,
}

#[derive(Clone, Copy)]
pub enum Record {
    Setup(Setup),
    Instruction(Fields),
    Run { thread: u8, instruction: u8 },
    Drain { thread: u8, cell: u8 },
}
