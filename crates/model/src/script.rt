//! The types and the operators of a script.

/// What a variable, a function or an expression yields.
#[derive(Clone, Copy, PartialEq, Eq, Debug)]
pub enum Ty {
    Inteiro,
    Booleano,
}

/// An operator between two operands.
#[derive(Clone, Copy, PartialEq, Eq, Debug)]
pub enum Operator {
    Add,
    Sub,
    Mult,
    Divi,
    And,
    Or,
    Less,
    Greater,
    Equal,
    Unequal,
    AtMost,
    AtLeast,
}
