// What is proved of runs, orders and rings. Each of these calls does nothing: its contract is the theorem.
ghost use Rattle.ledger.specs.Judged.{Judged};
ghost use Rattle.ledger.specs.Mistakes.{Mistakes};
ghost use Rattle.ledger.specs.Theorems.{NoEdgeToItself, OrderGivesRun, RunExactlyWithoutRing, RunGivesNoRing};
ghost use Rattle.ledger.specs.Worked.{WorkedRuns};

// An order of a trace, read as moves, is a sequentially consistent run with that trace.
pub fn an_order_gives_a_run()
    ensures { OrderGivesRun }
{}

// A trace that a sequentially consistent run has is without a ring.
pub fn a_run_gives_no_ring()
    ensures { RunGivesNoRing }
{}

// A trace has a sequentially consistent run exactly when its edges have no ring.
pub fn a_run_exactly_without_a_ring()
    ensures { RunExactlyWithoutRing }
{}

// No edge joins an action to itself.
pub fn no_edge_to_itself()
    ensures { NoEdgeToItself }
{}

// The worked runs come out as they were worked out by hand from the rules.
pub fn the_worked_runs()
    ensures { WorkedRuns }
{}

// Three mistakes that look right each turn the verdict on one of them.
pub fn the_mistakes_turn_verdicts()
    ensures { Mistakes }
{}

// Read through the numbering of a trace's actions, an order of the nodes makes `sequential` true, and a ring of them `violation`.
pub fn a_search_judges_truly()
    ensures { Judged }
{}
