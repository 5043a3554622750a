//! One token of the text at a time.
ghost use Rattle.std.specs.Prelude.{◌≡◌, length};
ghost use Rattle.model.specs.Reading.{read};
ghost use Rattle.reader.specs.Pieces.{token_from, ReadAs};
ghost use Rattle.reader.specs.Streams.{text_of, stream_of, Unfolds, Advances, StandsAt};

use super::Reader;
use super::classes::{Class, class_of};
use super::gaps::skip;
use super::names::name_at;
use super::numbers::number_at;
use super::signs::sign_at;
use super::tokens::{Lexeme, Piece};
use model::faults::{Placed, ReaderFault};

// The token at the front.
fn token_at(rest: &[u8]) -> Result<Piece<'_>, ReaderFault>
    ensures { ReadAs (token_from rest.now) rest.now result }
{
    match rest.first().map(|b| class_of(*b)) {
        Some(Class::Letter) => name_at(rest),
        Some(Class::Digit) => number_at(rest),
        _ => sign_at(rest),
    }
}

impl<'a> Reader<'a> {
    /// At the start of a text.
    pub fn new(text: &'a [u8]) -> Reader<'a>
        ensures reads { stream_of result ≡ read text.now }
        ensures same { text_of result ≡ text.now }
    {
        Reader { text, at: 0 }
    }

    /// How many bytes the text has.
    pub fn text_len(&self) -> usize
        ensures { result ≡ length (text_of self.now) }
    {
        self.text.len()
    }

    /// The next token, or `None` at the text's end; a fault, like the end, comes again at every further call.
    pub fn next(&mut self) -> Result<Option<Lexeme<'a>>, Placed<ReaderFault>>
        ensures unfolds { Unfolds self.old result self.new }
        ensures advances { Advances self.old result self.new }
        ensures stands { StandsAt self.old result }
        ensures same { text_of self.new ≡ text_of self.old }
    {
        let text = self.text;
        let place = skip(text, self.at)?;
        if place == text.len() {
            self.at = place;
            return Ok(None);
        }
        let read = token_at(&text[place..]);
        let Piece { token, len } = read.map_err(|fault| Placed { fault, place })?;
        self.at = place + len;
        Ok(Some(Lexeme { token, place }))
    }
}
