//! The reserved words and the signs of LPD.

/// A reserved word.
#[derive(Clone, Copy, PartialEq, Eq, Debug)]
pub enum Word {
    Var,
    Inteiro,
    Booleano,
    Verdadeiro,
    Falso,
    Programa,
    Procedimento,
    Funcao,
    Inicio,
    Fim,
    Se,
    Entao,
    Senao,
    Enquanto,
    Faca,
    Leia,
    Escreva,
    E,
    Ou,
    Nao,
    Div,
}

/// A sign.
#[derive(Clone, Copy, PartialEq, Eq, Debug)]
pub enum Sign {
    Plus,
    Minus,
    Times,
    Equal,
    Unequal,
    Less,
    AtMost,
    Greater,
    AtLeast,
    Becomes,
    Colon,
    Semicolon,
    Comma,
    Period,
    OpenBracket,
    CloseBracket,
}
