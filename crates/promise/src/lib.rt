//! What every list of calls keeps: the promise, proved over the definitions.
//!
//! Nothing is computed here: each function carries a law of the definitions in its contract.
#![tactic(auto)]

ghost use Rattle.model.specs.Promise.{Promise};
ghost use Rattle.model.specs.Enough.{Enough};
ghost use Rattle.promise.specs.Carried.{Carried};
ghost use Rattle.promise.specs.InUse.{EnoughInEveryList};

/// After every list of calls, from every set-up, the values taken and written are a front of those of the person who
/// follows the script; an end or a fault is the person's, or the want of cells; and enough budget brings it about.
pub fn every_list_of_calls_follows_the_script()
    ensures { Promise }
{}

/// The same, as the contract of a single call says it: for every list of calls that led to the world that the call met.
pub fn every_call_carries_the_promise()
    ensures { Carried }
{}

/// With cells and budget enough, an advance from the start tells the very end or fault that the person comes to.
pub fn enough_cells_and_budget_suffice()
    ensures { Enough }
{}

/// And so does a run in every list of calls, whatever calls come between its advances.
pub fn enough_cells_and_budget_suffice_in_every_list_of_calls()
    ensures { EnoughInEveryList }
{}
