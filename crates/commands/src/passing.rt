//! `leia` and `escreva`.
ghost use Rattle.std.specs.Prelude.{◌≡◌, ℕ, true};
ghost use Rattle.std.proofs.Math.Option.{some};
ghost use Rattle.model.specs.Tokens as Tokens;
ghost use Rattle.model.specs.Ahead.{is_word};
ghost use Rattle.model.specs.declared.tokens.Word.TheVariants as Words;
ghost use Rattle.cursor.specs.Rests.{ahead_of};
ghost use Rattle.expressions.specs.Says.{Kept};
ghost use Rattle.commands.specs.Runs.{wanted, Translates, Passed, Cells, IsThere, Names};

use super::Target;
use expressions::{Translation, is_inteiro};
use model::faults::{Fault, MeaningFault};
use model::names::NameKind;
use model::ops::Op;
use model::tokens::Sign;
use reader::tokens::Token;

// The cell of the variable that a name stands for, which must be one of numbers.
fn cell_of(translation: &Translation, name: &[u8]) -> Result<u16, Fault>
    requires { ahead_of translation.now.cursor.now ≡ some (Tokens.name name.now) }
    ensures { Cells translation.now result }
{
    let Some(known) = translation.names.look_up(name) else {
        return Err(translation.cursor.wrong(MeaningFault::NotVisible));
    };
    match known.kind {
        NameKind::Variable(ty) if is_inteiro(ty) => Ok(known.cell),
        _ => Err(translation.cursor.wrong(MeaningFault::WrongKind)),
    }
}

// The cell of the variable that the token ahead names.
fn cell_ahead(translation: &Translation) -> Result<u16, Fault>
    ensures says { Cells translation.now result }
    ensures there { IsThere translation.now.cursor.now result }
{
    match translation.cursor.token() {
        Some(Token::Name(name)) => cell_of(translation, name),
        _ => Err(translation.cursor.unexpected()),
    }
}

// What stands in brackets behind `leia` and `escreva`.
fn bracketed(translation: &mut Translation) -> Result<Target, Fault>
    ensures says { Names translation.old translation.new result }
    ensures listing { translation.new.listing ≡ translation.old.listing }
    ensures passed { Passed translation.old translation.new result }
{
    if !translation.cursor.is_sign(Sign::OpenBracket) {
        return Err(translation.cursor.unexpected());
    }
    translation.cursor.advance()?;
    let cell = cell_ahead(translation)?;
    let place = translation.cursor.entry_place();
    translation.cursor.advance()?;
    if !translation.cursor.is_sign(Sign::CloseBracket) {
        return Err(translation.cursor.unexpected());
    }
    translation.cursor.advance()?;
    Ok(Target { cell, place })
}

/// `leia`, which is the token ahead: a value is read into a variable.
pub fn read_value(translation: &mut Translation) -> Result<(), Fault>
    ensures translates { is_word Words.Leia (ahead_of translation.old.cursor.now) ≡ true → (n : ℕ) → Translates wanted translation.old n translation.new result }
    ensures kept { Kept translation.old translation.new }
{
    let keyword = translation.cursor.entry_place();
    translation.cursor.advance()?;
    let variable = bracketed(translation)?;
    translation.lay(Op::Rd, 0, keyword);
    translation.lay(Op::Str, variable.cell, variable.place);
    Ok(())
}

/// `escreva`, which is the token ahead: the value of a variable is written.
// Apart from `read_value`: one function of both would take four operands and two instructions to say their order.
pub fn write_value(translation: &mut Translation) -> Result<(), Fault>
    ensures translates { is_word Words.Escreva (ahead_of translation.old.cursor.now) ≡ true → (n : ℕ) → Translates wanted translation.old n translation.new result }
    ensures kept { Kept translation.old translation.new }
{
    let keyword = translation.cursor.entry_place();
    translation.cursor.advance()?;
    let variable = bracketed(translation)?;
    translation.lay(Op::Ldv, variable.cell, variable.place);
    translation.lay(Op::Prn, 0, keyword);
    Ok(())
}
