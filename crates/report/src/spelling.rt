//! How words and signs are spelled.
ghost use Rattle.std.specs.Prelude.{◌≡◌, ◌++◌};
ghost use Rattle.std.proofs.Math.Option.{some};
ghost use Rattle.model.specs.Reading.{same, pick, words, long_signs, short_signs};

use model::tokens::{Sign, Word};

/// The spelling that the reader takes for the word.
// A function, as for signs, which are another type with another definition, and no `Display`, which has no clause on
// what it writes.
pub fn word_text(word: Word) -> &'static str
    ensures { pick same result.now words ≡ some word }
{
    match word {
        Word::Var => "var",
        Word::Inteiro => "inteiro",
        Word::Booleano => "booleano",
        Word::Verdadeiro => "verdadeiro",
        Word::Falso => "falso",
        Word::Programa => "programa",
        Word::Procedimento => "procedimento",
        Word::Funcao => "funcao",
        Word::Inicio => "inicio",
        Word::Fim => "fim",
        Word::Se => "se",
        Word::Entao => "entao",
        Word::Senao => "senao",
        Word::Enquanto => "enquanto",
        Word::Faca => "faca",
        Word::Leia => "leia",
        Word::Escreva => "escreva",
        Word::E => "e",
        Word::Ou => "ou",
        Word::Nao => "nao",
        Word::Div => "div",
    }
}

/// The spelling that the reader takes for the sign.
pub fn sign_text(sign: Sign) -> &'static str
    ensures { pick same result.now (long_signs ++ short_signs) ≡ some sign }
{
    match sign {
        Sign::Plus => "+",
        Sign::Minus => "-",
        Sign::Times => "*",
        Sign::Equal => "=",
        Sign::Unequal => "!=",
        Sign::Less => "<",
        Sign::AtMost => "<=",
        Sign::Greater => ">",
        Sign::AtLeast => ">=",
        Sign::Becomes => ":=",
        Sign::Colon => ":",
        Sign::Semicolon => ";",
        Sign::Comma => ",",
        Sign::Period => ".",
        Sign::OpenBracket => "(",
        Sign::CloseBracket => ")",
    }
}
