//! The token ahead: what it is, where it is, and how it is taken.
ghost use Rattle.std.specs.Prelude.{◌≡◌, ◌≤◌};
ghost use Rattle.model.specs.Reading.{read};
ghost use Rattle.model.specs.declared.faults.Cause.TheVariants as Causes;
ghost use Rattle.cursor.specs.Rests.{text_of, behind, ahead_of, place_of, token_ahead, Fine, FineToken, stray, Takes};
ghost use Rattle.model.specs.declared.faults.GrammarFault.TheVariants.{TooDeep};

use super::Cursor;
use model::faults::{Cause, Fault, GrammarFault, MeaningFault, Placed};
use reader::Reader;
use reader::tokens::Token;

impl<'a> Cursor<'a> {
    /// Before the first token of a text, which `advance` brings.
    pub fn new(text: &'a [u8]) -> Cursor<'a>
        ensures { (behind result ≡ read text.now) × (text_of result ≡ text.now) }
    {
        Cursor {
            reader: Reader::new(text),
            ahead: None,
        }
    }

    /// Takes the token ahead.
    pub fn advance(&mut self) -> Result<(), Fault>
        ensures { Takes self.old result self.new }
    {
        self.ahead = self.reader.next()?;
        Ok(())
    }

    /// The token ahead.
    pub fn token(&self) -> Option<Token<'a>>
        ensures is { token_ahead result ≡ ahead_of self.now }
        ensures fine { Fine self.now → FineToken (text_of self.now) (place_of self.now) result }
    {
        self.ahead.map(|lexeme| lexeme.token)
    }

    /// Its place, or the text's length.
    pub fn place(&self) -> usize
        ensures { result ≡ place_of self.now }
    {
        self.ahead
            .map_or(self.reader.text_len(), |lexeme| lexeme.place)
    }

    /// Its place as an entry holds it: exact in a text of at most 65,535 bytes.
    pub fn entry_place(&self) -> u16
        ensures { place_of self.now ≤ 65535 → result ≡ place_of self.now }
    {
        u16::try_from(self.place()).unwrap_or(0)
    }

    /// The fault of a token that may not stand here, or of a text that ends too early.
    pub fn unexpected(&self) -> Fault
        ensures { (result.cause ≡ stray (ahead_of self.now)) × (result.place ≡ place_of self.now) }
    {
        self.fault(match self.ahead {
            Some(_) => GrammarFault::NotAdmitted,
            None => GrammarFault::TextEnded,
        })
    }

    /// The fault of one level too many at the token ahead.
    pub fn too_deep(&self) -> Fault
        ensures { (result.cause ≡ Causes.Grammar TooDeep) × (result.place ≡ place_of self.now) }
    {
        self.fault(GrammarFault::TooDeep)
    }

    /// A fault of names or types at the token ahead.
    pub fn wrong(&self, fault: MeaningFault) -> Fault
        ensures { (result.cause ≡ Causes.Meaning fault) × (result.place ≡ place_of self.now) }
    {
        self.fault(fault)
    }

    // The fault of a layer at the token ahead.
    fn fault<F: Into<Cause>>(&self, fault: F) -> Fault
        ensures { F.converts fault result.cause × (result.place ≡ place_of self.now) }
    {
        let place = self.place();
        Fault::from(Placed { fault, place })
    }
}
