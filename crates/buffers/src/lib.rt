// Store buffers: what every kind means, and the four kinds.
#![tactic(auto)]

mod disciplines;
mod limits;
mod meaning;
mod plain;
mod row;
mod store;
mod strong;
#[cfg(test)]
mod tests;
mod theorems;
mod waiting;

pub use disciplines::{DirectRules, Discipline, PerCellRules, QueueRules};
pub use meaning::StoreBuffer;
pub use plain::{Direct, PerCell, Plain, Queue};
pub use store::Store;
pub use strong::StrongCells;
pub use theorems::{
    a_drain_takes_the_oldest, nothing_chosen_changes_nothing, queue_lets_only_the_oldest_leave,
    stores_to_a_cell_leave_in_order,
};
pub use waiting::Waiting;
