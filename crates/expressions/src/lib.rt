//! Expressions, translated in one pass: methods of a translation that call each other in a ring.
//!
//! Each judges what it reads as the definitions do, at the same tokens, and lays the entries of what it has read.
#![tactic(auto)]

ghost use Rattle.std.specs.Prelude.{◌≡◌, List, [], ◌∷◌, ◌++◌};
ghost use Rattle.model.specs.Code.{entry};
ghost use Rattle.model.specs.Ops.{code_of};
ghost use Rattle.model.specs.declared.table.Entry as Entries;
ghost use Rattle.listing.specs.Listings.{Lists};
ghost use Rattle.expressions.specs.Says.{Kept};

mod apart;
mod operands;
mod operators;
mod ring;

pub use apart::expression;
use cursor::Cursor;
use listing::{Listing, entry_of};
use model::ops::Op;
pub use operators::is_inteiro;
use scopes::Scopes;

/// A text on its way into a table: the token ahead, the names that are visible, and the entries laid so far.
// Lent, and not owned: a `&` to an owned cursor beside an owned listing gets no proof, and callers may keep theirs. What
// stays, `Kept`, is a clause of each function that is lent one: it relates two moments.
#[derive(Drop)]
pub struct Translation<'t, 'a> {
    pub cursor: &'t mut Cursor<'a>,
    pub names: &'t Scopes<'a>,
    pub listing: &'t mut Listing<'a>,
}

impl Translation<'_, '_> {
    /// Lays an instruction with one operand behind the entries that are there.
    pub fn lay(&mut self, op: Op, operand: u16, place: u16)
        ensures lists { (es : List Entries.Entry) → Lists self.old.listing.now es → Lists self.new.listing.now (es ++ (entry (code_of op) operand 0 place ∷ [])) }
        ensures still { self.new.cursor.now ≡ self.old.cursor.now }
        ensures kept { Kept self.old self.new }
    {
        self.listing.lay(entry_of(op.code(), operand, 0, place));
    }
}
