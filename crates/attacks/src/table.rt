// The table of attack pairs: a search for each store.
ghost use Rattle.program.specs.Programs.{lines_of};
ghost use Rattle.attacks.specs.Tables.{Long, RightRow, RightTable};

use super::paths::{CodePaths, is_load, is_store};
use graph::reached;
use program::Program;
use std::array;

// A mark at each attack pair: a row for each store, a place in it for each load.
pub type Table = [[bool; 128]; 128];

// Marks every attack pair of the program: row by row in its place, since a table that `array::from_fn` makes is moved whole
// each time that it is handed on.
pub fn attack_table(program: &Program) -> Table
    ensures { RightTable (lines_of program.now) result }
{
    let mut table = [[false; 128]; 128];
    for store in 0..program.len() {
        table[store] = row_of(program, store);
    }
    table
}

// Marks the loads that make an attack pair with that line: none, if it is no store.
fn row_of(program: &Program, store: usize) -> [bool; 128]
    ensures long { Long result }
    ensures right { RightRow (lines_of program.now) store result }
{
    if !is_store(program, store) {
        return [false; 128];
    }
    let reached = reached(&CodePaths { program }, store);
    array::from_fn(|load| reached[load] && is_load(program, load))
}
