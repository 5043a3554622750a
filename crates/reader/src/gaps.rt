//! What stands between tokens: blanks and comments.
ghost use Rattle.std.specs.Prelude.{◌≡◌, ℕ, ◌≤◌, length, drop};
ghost use Rattle.model.specs.Reading.{comment};
ghost use Rattle.reader.specs.Pieces.{closing, Behind, Skips};

use super::classes::{Class, class_of};
use model::faults::{Placed, ReaderFault};

// The place behind the first closing brace from `from` on.
fn closed(text: &[u8], from: usize) -> Option<usize>
    requires { from ≤ length text.now }
    ensures within { Behind text.now from result }
    ensures closes { (o : ℕ) → comment o from (drop from text.now) ≡ closing o text.now result }
{
    // By index: with `position`, or a slice pattern, a long comment took 1.4 times as long; with `run_len`, short comments or
    // the blanks around them 1.5 times or more.
    for at in from..text.len() {
        if text[at] == b'}' {
            return Some(at + 1);
        }
    }
    None
}

// The place of the next byte that is neither a blank nor in a comment.
pub(crate) fn skip(text: &[u8], from: usize) -> Result<usize, Placed<ReaderFault>>
    requires { from ≤ length text.now }
    ensures { Skips text.now from result }
{
    // By hand: a comment moves the place on by more than one byte, so no `for` and no chain says it.
    let mut at = from;
    while at < text.len() {
        match class_of(text[at]) {
            Class::Blank => at += 1,
            Class::Brace => {
                at = closed(text, at + 1).ok_or(Placed {
                    fault: ReaderFault::OpenComment,
                    place: at,
                })?;
            }
            _ => break,
        }
    }
    Ok(at)
}
