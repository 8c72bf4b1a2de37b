// What a replay holds and what its calls do with it, as definitions in specs/, and that it keeps to the ledger.
#![tactic(auto)]

ghost use Rattle.present.specs.Theorems.{Theorems};

// A replay that only its own calls have touched keeps to the ledger of the moves that it accepted, and is judged by the edges of
// their trace. This call does nothing: its contract is the theorem.
pub fn a_replay_keeps_to_the_ledger()
    ensures { Theorems }
{}
