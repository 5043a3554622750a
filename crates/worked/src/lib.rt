//! The worked examples, as facts about the definitions.
#![tactic(auto)]

ghost use Rattle.model.specs.Promise.{Each};
ghost use Rattle.worked.specs.Facts.{Holds};
ghost use Rattle.worked.specs.Table.{examples};

/// Every example of the table comes out as it is written there, by hand and on the machine.
pub fn worked_examples_stand()
    ensures { Each Holds examples }
{}
