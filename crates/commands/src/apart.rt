//! The same, for who has the text, the names and the table apart, as in `expressions`.
ghost use Rattle.std.specs.Prelude.{◌≡◌, true};
ghost use Rattle.std.proofs.Math.Option.{some};
ghost use Rattle.model.specs.Ahead.{is_word};
ghost use Rattle.model.specs.declared.tokens.Word.TheVariants as Words;
ghost use Rattle.model.specs.Tokens as Tokens;
ghost use Rattle.cursor.specs.Rests.{ahead_of};
ghost use Rattle.listing.specs.Listings.{SameTable};
ghost use Rattle.expressions.specs.Says.{Went};
ghost use Rattle.expressions.specs.Apart.{apart};
ghost use Rattle.commands.specs.Runs.{wanted, Tests};
ghost use Rattle.commands.specs.Apart.{Translates};

use super::{conditions, leading, passing};
use cursor::Cursor;
use expressions::Translation;
use listing::Listing;
use model::faults::Fault;
use model::tokens::Word;
use scopes::Scopes;

/// A condition, and the word behind it, where `inside` levels are open.
pub fn condition<'a>(
    cursor: &mut Cursor<'a>,
    names: &Scopes<'a>,
    listing: &mut Listing<'a>,
    inside: usize,
    word: Word,
) -> Result<(), Fault>
    ensures says { Tests word (apart names.now cursor.old listing.old) inside (apart names.now cursor.new listing.new) result }
    ensures went { Went (apart names.now cursor.old listing.old) result (apart names.now cursor.new listing.new) }
    ensures same { SameTable listing.old listing.new }
{
    let mut translation = Translation {
        cursor,
        names,
        listing,
    };
    conditions::condition(&mut translation, inside, word)
}

/// A command that begins with a name, which is the token ahead: an assignment, or a call of a procedure.
pub fn named<'a>(
    cursor: &mut Cursor<'a>,
    names: &Scopes<'a>,
    listing: &mut Listing<'a>,
    depth: usize,
    name: &[u8],
) -> Result<(), Fault>
    ensures says { ahead_of cursor.old ≡ some (Tokens.name name.now) → Translates wanted names.now cursor.old listing.old depth cursor.new listing.new result }
    ensures went { ahead_of cursor.old ≡ some (Tokens.name name.now) → Went (apart names.now cursor.old listing.old) result (apart names.now cursor.new listing.new) }
    ensures same { SameTable listing.old listing.new }
{
    let mut translation = Translation {
        cursor,
        names,
        listing,
    };
    leading::named(&mut translation, depth, name)
}

/// `leia`, which is the token ahead: a value is read into a variable.
pub fn read_value<'a>(
    cursor: &mut Cursor<'a>,
    names: &Scopes<'a>,
    listing: &mut Listing<'a>,
    depth: usize,
) -> Result<(), Fault>
    ensures says { is_word Words.Leia (ahead_of cursor.old) ≡ true → Translates wanted names.now cursor.old listing.old depth cursor.new listing.new result }
    ensures went { is_word Words.Leia (ahead_of cursor.old) ≡ true → Went (apart names.now cursor.old listing.old) result (apart names.now cursor.new listing.new) }
    ensures same { SameTable listing.old listing.new }
{
    let mut translation = Translation {
        cursor,
        names,
        listing,
    };
    passing::read_value(&mut translation)
}

/// `escreva`, which is the token ahead: the value of a variable is written.
pub fn write_value<'a>(
    cursor: &mut Cursor<'a>,
    names: &Scopes<'a>,
    listing: &mut Listing<'a>,
    depth: usize,
) -> Result<(), Fault>
    ensures says { is_word Words.Escreva (ahead_of cursor.old) ≡ true → Translates wanted names.now cursor.old listing.old depth cursor.new listing.new result }
    ensures went { is_word Words.Escreva (ahead_of cursor.old) ≡ true → Went (apart names.now cursor.old listing.old) result (apart names.now cursor.new listing.new) }
    ensures same { SameTable listing.old listing.new }
{
    let mut translation = Translation {
        cursor,
        names,
        listing,
    };
    passing::write_value(&mut translation)
}
