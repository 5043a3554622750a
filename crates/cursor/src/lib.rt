//! The text with one token of look-ahead.
//!
//! The reader's fault is told as soon as the token before it is taken. So the token ahead is always a token or the
//! end of the text.
#![tactic(auto)]

mod ahead;
mod kinds;

use reader::Reader;
use reader::tokens::Lexeme;

/// A reader, and the token ahead of it, `None` at the end of the text.
#[derive(Drop)]
pub struct Cursor<'a> {
    reader: Reader<'a>,
    ahead: Option<Lexeme<'a>>,
}
