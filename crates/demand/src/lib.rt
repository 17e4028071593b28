// Demand 3: the theorem over every list of calls, built from the relations that are the public contracts; and that read cells and touching show the
// history.
//
//   specs/Theorem   the statement, clause by clause; lists of calls
//   specs/Cells     read cells after them; Touching: touching, next and last
//   proofs/Runs     along every list of calls the tables stand for the ledger
//   proofs/Shown    so read cells shows the history; Touched: so does what touching lists
//
// That the contracts of the public calls are these relations is shown in crate promises.

#![tactic(auto)]

ghost use Rattle.demand.specs.Theorem.{Demand3};
ghost use Rattle.demand.specs.Cells.{CellsShown};
ghost use Rattle.demand.specs.Touching.{TouchingShown};

// The theorem as the contract of a function that does nothing: without its proof nothing here is built.
pub fn demand_3()
    ensures { Demand3 }
{}

// After every list of calls with an accepted finish read cells shows exactly what the history says.
pub fn shows_history()
    ensures { CellsShown }
{}

// And touching lists exactly the blocks that do; next and last are the nearest of them.
pub fn touching_shows_history()
    ensures { TouchingShown }
{}
