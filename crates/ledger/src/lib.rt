// What a run of a program comes to, apart from the data of any program that replays it: definitions in specs/, and the
// theorems about them.
#![tactic(auto)]

mod moves;
mod text;
mod theorems;

pub use moves::Move;
pub use theorems::{
    a_run_exactly_without_a_ring, a_run_gives_no_ring, a_search_judges_truly, an_order_gives_a_run,
    no_edge_to_itself, the_mistakes_turn_verdicts, the_worked_runs,
};
