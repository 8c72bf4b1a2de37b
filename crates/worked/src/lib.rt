// The table of worked runs: what small programs come to, worked out by hand from the rules.
#![tactic(auto)]

ghost use Rattle.worked.specs.Recorded.{Recorded};
ghost use Rattle.worked.specs.Table.{Table};

// Every row of the table comes out as it was worked out by hand. This call does nothing: its contract is the theorem.
pub fn the_table_of_worked_runs()
    ensures { Table }
{}

// The worked recordings mean what was recorded, and nothing can be printed of them but the stated text. This call does nothing: its contract
// is the theorem.
pub fn the_worked_recordings()
    ensures { Recorded }
{}
