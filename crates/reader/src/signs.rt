//! The signs, the longest that fits.
ghost use Rattle.std.specs.Prelude.{◌≡◌, [], ◌∷◌};
ghost use Rattle.model.specs.Reading.{pick, same, long_signs, short_signs};
ghost use Rattle.reader.specs.Pieces.{found, pair_from, sign_from, Two, ReadAs};

use super::tokens::{Piece, Token};
use model::faults::ReaderFault;
use model::tokens::Sign;

// A sign of two bytes.
fn long_at(rest: &[u8]) -> Option<Sign>
    ensures is { found result ≡ pick same (pair_from rest.now) long_signs }
    ensures fits { Two rest.now result }
{
    match rest {
        [b'!', b'=', ..] => Some(Sign::Unequal),
        [b'<', b'=', ..] => Some(Sign::AtMost),
        [b'>', b'=', ..] => Some(Sign::AtLeast),
        [b':', b'=', ..] => Some(Sign::Becomes),
        _ => None,
    }
}

fn short_sign(b: u8) -> Option<Sign>
    ensures { found result ≡ pick same (b ∷ []) short_signs }
{
    match b {
        b'+' => Some(Sign::Plus),
        b'-' => Some(Sign::Minus),
        b'*' => Some(Sign::Times),
        b'=' => Some(Sign::Equal),
        b'<' => Some(Sign::Less),
        b'>' => Some(Sign::Greater),
        b':' => Some(Sign::Colon),
        b';' => Some(Sign::Semicolon),
        b',' => Some(Sign::Comma),
        b'.' => Some(Sign::Period),
        b'(' => Some(Sign::OpenBracket),
        b')' => Some(Sign::CloseBracket),
        _ => None,
    }
}

pub(crate) fn sign_at<'a>(rest: &[u8]) -> Result<Piece<'a>, ReaderFault>
    ensures { ReadAs (sign_from rest.now) rest.now result }
{
    if let Some(sign) = long_at(rest) {
        let token = Token::Sign(sign);
        return Ok(Piece { token, len: 2 });
    }
    let first = rest.first().ok_or(ReaderFault::NoToken)?;
    let sign = short_sign(*first).ok_or(ReaderFault::NoToken)?;
    let token = Token::Sign(sign);
    Ok(Piece { token, len: 1 })
}
