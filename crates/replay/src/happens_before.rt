// The happens-before edges between the actions of a run, as a graph.
ghost use Rattle.std.specs.Prelude.{◌≤◌, length};

use super::names::Name;
use super::state::State;

// The data of a replay, looked at as that graph.
#[derive(Drop)]
pub struct HappensBefore<'a> {
    pub state: &'a State,
    // the actions by number
    pub names: &'a [Name],
    ghost few: { length names.now ≤ 256 },
}

mod edges;
