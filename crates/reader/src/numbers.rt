//! Numbers.
ghost use Rattle.std.specs.Prelude.{◌≡◌, true, slice_index};
ghost use Rattle.model.specs.Reading.{digit};
ghost use Rattle.reader.specs.Pieces.{token_from, ReadAs, Worth};

use super::classes::is_digit;
use super::runs::run_len;
use super::tokens::{Piece, Token};
use model::faults::ReaderFault;

const GREATEST: u64 = i32::MAX as u64;

// What the digits are worth, unless that is above the greatest value. However many digits follow, it ends there.
fn worth_of(digits: &[u8]) -> Option<u32>
    ensures { Worth digits.now result }
{
    let mut value: u64 = 0;
    for d in digits {
        value = value * 10 + u64::from(d.saturating_sub(b'0'));
        if value > GREATEST {
            return None;
        }
    }
    Some(value as u32)
}

// The number at the front, which begins with a digit.
pub(crate) fn number_at<'a>(rest: &[u8]) -> Result<Piece<'a>, ReaderFault>
    requires { digit (slice_index rest.now 0) ≡ true }
    ensures { ReadAs (token_from rest.now) rest.now result }
{
    let len = run_len(rest, is_digit);
    // By `let .. else`: with `ok_or` and `?` the proof of the fault's end did not close.
    let Some(value) = worth_of(&rest[..len]) else {
        return Err(ReaderFault::LargeNumber);
    };
    let token = Token::Number(value);
    Ok(Piece { token, len })
}
