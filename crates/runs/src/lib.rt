//! Laws of the machine's runs, above the definition of one step after the other.
#![tactic(auto)]

ghost use Rattle.runs.specs.Runs.{ToldExactly, Joined, PassedOn};

/// What a run tells and leaves is what its steps came to. It tells that it is running exactly where as many steps
/// as the budget has were carried out, and each of them went on.
pub fn a_run_tells_what_its_steps_came_to()
    ensures { ToldExactly }
{}

/// A run with two budgets, one after the other, is the run with their sum.
pub fn a_run_in_two_parts_is_the_run()
    ensures { Joined }
{}

/// A run takes from the front of what waits, in order, and adds to the end of what is written.
pub fn a_run_takes_in_order_and_adds_at_the_end()
    ensures { PassedOn }
{}
