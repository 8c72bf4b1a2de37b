// Writing the marked places of a table as a list of pairs, row by row.
ghost use Rattle.std.specs.Prelude.{◌≡◌, ◌≤◌, ◌++◌, length, drop};
ghost use Rattle.attacks.specs.Tables.{row_pairs, table_pairs};

use super::pair::Pair;
use super::table::Table;

// How many places are marked.
pub fn count_marks(table: &Table) -> usize
    ensures { result ≡ length (table_pairs table.now) }
{
    table.iter().fold(0, |count, row| count + count_row(row))
}

// How many places of a row are marked. A sum takes no branch at a place, as `filter` with `count` would.
fn count_row(row: &[bool; 128]) -> usize
    ensures value { result ≡ length (row_pairs 0 row.now) }
    ensures bound { result ≤ 128 }
{
    row.iter().map(|marked| usize::from(*marked)).sum()
}

// Writes the marked places in order at the front of the list.
pub fn write_pairs(table: &Table, list: &mut [Pair])
    requires { length (table_pairs table.now) ≤ length list.old }
    ensures { list.new ≡ table_pairs table.now ++ drop (length (table_pairs table.now)) list.old }
{
    // A row with no mark is passed over whole.
    let rows = table.iter().enumerate();
    let pairs = rows.filter(|(_, row)| count_row(row) > 0).flat_map(|(store, row)| {
        let marks = row.iter().enumerate();
        let marked = marks.filter(|(_, marked)| **marked);
        marked.map(move |(load, _)| Pair { store, load })
    });
    // By place: after `iter_mut` of a slice a proof knows no element.
    for (at, pair) in pairs.enumerate() {
        list[at] = pair;
    }
}
