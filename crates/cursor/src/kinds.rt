//! Which word, sign, operator or type the token ahead is.
ghost use Rattle.std.specs.Prelude.{◌≡◌};
ghost use Rattle.model.specs.Ahead.{is_word, is_sign};
ghost use Rattle.model.specs.Ahead.{multiplying, adding, comparing, type_named};
ghost use Rattle.reader.specs.Pieces.{found};
ghost use Rattle.cursor.specs.Rests.{ahead_of};

use super::Cursor;
use model::script::{Operator, Ty};
use model::tokens::{Sign, Word};
use reader::tokens::Token;

impl<'a> Cursor<'a> {
    /// Whether the token ahead is this word.
    // Apart from `is_sign`: a word and a sign are two types, with two definitions.
    pub fn is_word(&self, word: Word) -> bool
        ensures { result ≡ is_word word (ahead_of self.now) }
    {
        matches!(self.token(), Some(Token::Word(found)) if found == word)
    }

    /// Whether it is this sign.
    pub fn is_sign(&self, sign: Sign) -> bool
        ensures { result ≡ is_sign sign (ahead_of self.now) }
    {
        matches!(self.token(), Some(Token::Sign(found)) if found == sign)
    }

    /// The operator between two factors that it is.
    pub fn multiplying(&self) -> Option<Operator>
        ensures { found result ≡ multiplying (ahead_of self.now) }
    {
        match self.token() {
            Some(Token::Sign(Sign::Times)) => Some(Operator::Mult),
            Some(Token::Word(Word::Div)) => Some(Operator::Divi),
            Some(Token::Word(Word::E)) => Some(Operator::And),
            _ => None,
        }
    }

    /// The operator between two terms that it is.
    pub fn adding(&self) -> Option<Operator>
        ensures { found result ≡ adding (ahead_of self.now) }
    {
        match self.token() {
            Some(Token::Sign(Sign::Plus)) => Some(Operator::Add),
            Some(Token::Sign(Sign::Minus)) => Some(Operator::Sub),
            Some(Token::Word(Word::Ou)) => Some(Operator::Or),
            _ => None,
        }
    }

    /// The operator between two simple expressions that it is.
    pub fn comparing(&self) -> Option<Operator>
        ensures { found result ≡ comparing (ahead_of self.now) }
    {
        match self.token() {
            Some(Token::Sign(Sign::Equal)) => Some(Operator::Equal),
            Some(Token::Sign(Sign::Unequal)) => Some(Operator::Unequal),
            Some(Token::Sign(Sign::Less)) => Some(Operator::Less),
            Some(Token::Sign(Sign::AtMost)) => Some(Operator::AtMost),
            Some(Token::Sign(Sign::Greater)) => Some(Operator::Greater),
            Some(Token::Sign(Sign::AtLeast)) => Some(Operator::AtLeast),
            _ => None,
        }
    }

    /// The type that it names.
    pub fn type_named(&self) -> Option<Ty>
        ensures { found result ≡ type_named (ahead_of self.now) }
    {
        match self.token() {
            Some(Token::Word(Word::Inteiro)) => Some(Ty::Inteiro),
            Some(Token::Word(Word::Booleano)) => Some(Ty::Booleano),
            _ => None,
        }
    }
}
