//! The table of an accepted script does what a person does who follows the script by hand.
//!
//! Nothing is computed here: each function carries a law of the definitions in its contract.
#![tactic(auto)]

ghost use Rattle.faithful.specs.Turns.{MoreTurns};
ghost use Rattle.faithful.specs.Faithful.{Faithful, SameOrFull, EveryMoment, NeverUnsound, OneScript};

/// Where the person ends, so does the table; where the person meets a fault, the table stops by it, at an entry of
/// that place; where the person has no turn left, the table has made a step for each turn. The host means the same.
pub fn table_does_what_the_person_does()
    ensures { Faithful }
{}

/// With fewer cells the table does the same, or stops for want of them, with a front of what the person takes and
/// writes.
pub fn fewer_cells_give_the_same_or_a_full_stop()
    ensures { SameOrFull }
{}

/// After every budget, with however many cells, what was taken and written is a front of the person's list, and an
/// end or fault that is told is the person's, or the want of cells.
pub fn every_moment_is_the_persons()
    ensures { EveryMoment }
{}

/// No run of a script's table stops by a fault of the table's.
pub fn no_run_meets_an_unsound_table()
    ensures { NeverUnsound }
{}

/// A text is one script, however many names there may be.
pub fn a_text_is_one_script()
    ensures { OneScript }
{}

/// With more turns the person gets at least as far, and an end or a fault stays what it was.
pub fn more_turns_change_no_end_and_no_fault()
    ensures { MoreTurns }
{}
