//! Conditions of `se` and `enquanto`.
ghost use Rattle.commands.specs.Runs.{Passed, Tests};

use expressions::{Translation, is_inteiro};
use model::faults::{Fault, MeaningFault};
use model::tokens::Word;

/// A condition, and the word behind it, where `inside` levels are open.
pub fn condition(translation: &mut Translation, inside: usize, word: Word) -> Result<(), Fault>
    ensures says { Tests word translation.old inside translation.new result }
    ensures passed { Passed translation.old translation.new result }
{
    let ty = translation.expression(inside)?;
    if is_inteiro(ty) {
        return Err(translation.cursor.wrong(MeaningFault::WrongType));
    }
    if !translation.cursor.is_word(word) {
        return Err(translation.cursor.unexpected());
    }
    translation.cursor.advance()
}
