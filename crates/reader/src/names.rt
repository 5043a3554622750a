//! Names, and the reserved words among them.
ghost use Rattle.std.specs.Prelude.{◌≡◌, true, slice_index};
ghost use Rattle.model.specs.Reading.{letter};
ghost use Rattle.reader.specs.Pieces.{token_from, ReadAs};

use super::classes::is_name_byte;
use super::runs::run_len;
use super::tokens::{Piece, Token};
use super::words::word_of;
use model::faults::ReaderFault;

const LONGEST: usize = 30;

// The name or word at the front, which begins with a letter.
pub(crate) fn name_at(rest: &[u8]) -> Result<Piece<'_>, ReaderFault>
    requires { letter (slice_index rest.now 0) ≡ true }
    ensures { ReadAs (token_from rest.now) rest.now result }
{
    let len = run_len(rest, is_name_byte);
    if len > LONGEST {
        return Err(ReaderFault::LongName);
    }
    let name = &rest[..len];
    // By a `match`: `map_or` is not covered, with `Token::Word` or a closure, since the result names a lifetime.
    let token = match word_of(name) {
        Some(word) => Token::Word(word),
        None => Token::Name(name),
    };
    Ok(Piece { token, len })
}
