//! The judge and the grammar: laws about the definitions of `model`.
#![tactic(auto)]

ghost use Rattle.model.specs.Acceptance.{Acceptance};
ghost use Rattle.grammar.specs.Trees.{CellsSuffice, OneTree, RoomSuffices};
ghost use Rattle.grammar.specs.Operators.{TokensTold, TypesTold};
ghost use Rattle.grammar.specs.Visibility.{FoundByRules, DeclaredByRules};

/// The judge accepts a text with a tree exactly when the rules of the grammar give its tokens that tree.
pub fn judge_accepts_exactly_the_grammar()
    ensures { Acceptance }
{}

/// A text has one tree at most, whatever the number of names that there is room for.
pub fn a_text_has_one_tree()
    ensures { OneTree }
{}

/// A text that has a tree keeps it where there is room for more names.
pub fn more_room_keeps_the_tree()
    ensures { RoomSuffices }
{}

/// Along every chain of nested blocks, the cells of a script are 4,096 at most.
pub fn a_script_fits_the_cells()
    ensures { CellsSuffice }
{}

/// Each operator and type is told by its token, and takes and yields the types of its row.
pub fn operators_are_as_in_their_tables()
    ensures { TokensTold × TypesTold }
{}

/// A name finds the newest declaration of the innermost block that has one.
pub fn names_find_their_innermost_declaration()
    ensures { FoundByRules × DeclaredByRules }
{}
