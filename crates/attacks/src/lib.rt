// The attack pairs of a program: the stores and later loads of one thread that a store buffer could reorder.
#![tactic(auto)]

ghost use Rattle.program.specs.Programs.{lines_of};
ghost use Rattle.attacks.specs.Attacks.{Listed, OneList};

use program::Program;
use refusal::Refusal;

mod listing;
mod pair;
mod paths;
mod table;
#[cfg(test)]
mod tests;

pub use pair::Pair;

// Lists every attack pair of the program at the front of the list, ascending by store and then by load, and answers how many
// there are: the list is the caller's memory. A list with fewer places is refused and is as before.
pub fn attack_pairs(program: &Program, list: &mut [Pair]) -> Result<usize, Refusal>
    ensures { Listed (lines_of program.now) list.old result list.new }
{
    let table = table::attack_table(program);
    let count = listing::count_marks(&table);
    if count > list.len() {
        return Err(Refusal::TooShort);
    }
    listing::write_pairs(&table, list);
    Ok(count)
}

// The contract of this call, which does nothing, is a theorem: there is only one list of all attack pairs in order.
pub fn the_pairs_are_one_list()
    ensures { OneList }
{}
