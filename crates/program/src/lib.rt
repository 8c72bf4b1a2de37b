// Programs of up to eight threads that share memory cells: what an instruction is, and a list of them in which no
// field is out of range.
#![tactic(auto)]

mod forms;
mod lines;
mod operations;
mod ranges;
mod table;
#[cfg(test)]
mod tests;
mod text;

pub use forms::{Instruction, Operand};
pub use lines::Line;
pub use operations::{Operation, UnknownOperation};
pub use table::Program;
