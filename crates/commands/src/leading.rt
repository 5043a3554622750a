//! Commands that begin with a name: assignments and calls of procedures.
ghost use Rattle.std.specs.Prelude.{◌≡◌, ℕ, true, false};
ghost use Rattle.std.proofs.Math.Option.{some};
ghost use Rattle.model.specs.Ahead.{is_sign};
ghost use Rattle.model.specs.declared.tokens.Sign.TheVariants as Signs;
ghost use Rattle.model.specs.Tokens as Tokens;
ghost use Rattle.model.specs.Tree as Tree;
ghost use Rattle.cursor.specs.Rests.{ahead_of};
ghost use Rattle.expressions.specs.Says.{Kept};
ghost use Rattle.commands.specs.Runs.{wanted, Translates, Passed, Assigns, GoesOn};

use expressions::Translation;
use model::faults::{Fault, MeaningFault};
use model::names::NameKind;
use model::ops::Op;
use model::script::Ty;
use model::tokens::Sign;
use scopes::names::Name;

// From `:=` on: the value of an expression goes into a cell of the type.
fn assign(
    translation: &mut Translation,
    depth: usize,
    cell: u16,
    ty: Ty,
    place: u16,
) -> Result<(), Fault>
    requires { is_sign Signs.Becomes (ahead_of translation.old.cursor.now) ≡ true }
    ensures says { (f : Tree.Found) → Assigns f cell ty place translation.old depth translation.new result }
    ensures passed { Passed translation.old translation.new result }
{
    translation.cursor.advance()?;
    let value = translation.expression(depth)?;
    if value != ty {
        return Err(translation.cursor.wrong(MeaningFault::WrongType));
    }
    translation.lay(Op::Str, cell, place);
    Ok(())
}

// Behind a name, before `:=`.
fn set(translation: &mut Translation, depth: usize, known: Name, place: u16) -> Result<(), Fault>
    requires { is_sign Signs.Becomes (ahead_of translation.old.cursor.now) ≡ true }
    ensures says { GoesOn known place translation.old depth translation.new result }
    ensures passed { Passed translation.old translation.new result }
{
    match known.kind {
        NameKind::Variable(ty) => assign(translation, depth, known.cell, ty, place),
        NameKind::Function(ty) if known.inside => {
            assign(translation, depth, known.cell, ty, place)
        }
        _ => Err(translation.cursor.wrong(MeaningFault::WrongKind)),
    }
}

// Behind a name, before any other token.
fn invoke(translation: &mut Translation, known: Name, place: u16) -> Result<(), Fault>
    requires { is_sign Signs.Becomes (ahead_of translation.old.cursor.now) ≡ false }
    ensures says { (n : ℕ) → GoesOn known place translation.old n translation.new result }
    ensures still { translation.new.cursor.now ≡ translation.old.cursor.now }
    ensures kept { Kept translation.old translation.new }
{
    let NameKind::Procedure = known.kind else {
        return Err(translation.cursor.wrong(MeaningFault::WrongKind));
    };
    translation.lay(Op::Call, known.entry, place);
    Ok(())
}

/// A command that begins with a name, which is the token ahead: an assignment, or a call of a procedure.
pub fn named(translation: &mut Translation, depth: usize, name: &[u8]) -> Result<(), Fault>
    ensures translates { ahead_of translation.old.cursor.now ≡ some (Tokens.name name.now) → Translates wanted translation.old depth translation.new result }
    ensures kept { Kept translation.old translation.new }
{
    let Some(known) = translation.names.look_up(name) else {
        return Err(translation.cursor.wrong(MeaningFault::NotVisible));
    };
    let place = translation.cursor.entry_place();
    translation.cursor.advance()?;
    if translation.cursor.is_sign(Sign::Becomes) {
        return set(translation, depth, known, place);
    }
    invoke(translation, known, place)
}
