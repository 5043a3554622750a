//! Factors of one token, and operators laid behind their operands.
ghost use Rattle.std.specs.Prelude.{◌≡◌, ℕ};
ghost use Rattle.std.proofs.Math.Option.{some};
ghost use Rattle.model.specs.Tokens as Tokens;
ghost use Rattle.cursor.specs.Rests.{ahead_of};
ghost use Rattle.expressions.specs.Parts.{factor, whole};
ghost use Rattle.expressions.specs.Says.{Translates, ConstantAhead, Taken, Joins, Kept};

use super::Translation;
use super::operators::yielded;
use cursor::Cursor;
use listing::constant_of;
use model::faults::{Fault, MeaningFault};
use model::names::NameKind;
use model::ops::Op;
use model::script::{Operator, Ty};

// Takes the token ahead, which leaves a part of this type.
fn taken(cursor: &mut Cursor, ty: Ty) -> Result<Ty, Fault>
    ensures { Taken cursor.old ty result cursor.new }
{
    cursor.advance()?;
    Ok(ty)
}

impl Translation<'_, '_> {
    /// A constant: a number, or a truth as the number that stands for it.
    pub(crate) fn constant(&mut self, value: u32, ty: Ty) -> Result<Ty, Fault>
        requires { ConstantAhead self.old.cursor.now value ty }
        ensures { (n : ℕ) → Translates factor (whole factor) self.old n self.new result }
    {
        let place = self.cursor.entry_place();
        self.listing.lay(constant_of(value, place));
        taken(self.cursor, ty)
    }

    /// A name: the value of a variable, or the result of a function that is called.
    pub(crate) fn use_of(&mut self, name: &[u8]) -> Result<Ty, Fault>
        requires { ahead_of self.old.cursor.now ≡ some (Tokens.name name.now) }
        ensures { (n : ℕ) → Translates factor (whole factor) self.old n self.new result }
    {
        // Written out, as in `commands`: behind it each goes on in its own way, and says so of the judge's look-up.
        let Some(known) = self.names.look_up(name) else {
            return Err(self.cursor.wrong(MeaningFault::NotVisible));
        };
        let place = self.cursor.entry_place();
        match known.kind {
            NameKind::Variable(ty) => {
                self.lay(Op::Ldv, known.cell, place);
                taken(self.cursor, ty)
            }
            NameKind::Function(ty) => {
                self.lay(Op::Call, known.entry, place);
                self.lay(Op::Ldv, 0, place);
                taken(self.cursor, ty)
            }
            NameKind::Procedure | NameKind::Nothing => {
                Err(self.cursor.wrong(MeaningFault::WrongKind))
            }
        }
    }

    /// Lays an operator behind its operands, if their types fit it.
    pub(crate) fn join(
        &mut self,
        operator: Operator,
        left: Ty,
        right: Ty,
        place: u16,
    ) -> Result<Ty, Fault>
        ensures joins { Joins operator left right place self.old self.new result }
        ensures still { self.new.cursor.now ≡ self.old.cursor.now }
        ensures kept { Kept self.old self.new }
    {
        let Some(ty) = yielded(operator, left, right) else {
            return Err(self.cursor.wrong(MeaningFault::WrongType));
        };
        self.lay(Op::Both(operator), 0, place);
        Ok(ty)
    }
}
