//! Operators: the rows that they stand in, and the types that they take and yield.
ghost use Rattle.std.specs.Prelude.{◌≡◌};
ghost use Rattle.model.specs.Types.{is_inteiro};
ghost use Rattle.reader.specs.Pieces.{found};
ghost use Rattle.cursor.specs.Rests.{ahead_of};
ghost use Rattle.expressions.specs.Parts.{yields};
ghost use Rattle.expressions.specs.Rows.{between};

use cursor::Cursor;
use model::script::{Operator, Ty};

/// Parts with operators between them: a simple expression is a row of terms, a term a row of factors.
// An enum, and no closures: in a ring of calls each would need a clause of its own that fewer tokens are left.
#[derive(Clone, Copy)]
pub(crate) enum Row {
    Terms,
    Factors,
}

impl Row {
    /// The operator of the row that the token ahead is.
    pub(crate) fn operator(self, cursor: &Cursor) -> Option<Operator>
        ensures { found result ≡ between self (ahead_of cursor.now) }
    {
        match self {
            Row::Terms => cursor.adding(),
            Row::Factors => cursor.multiplying(),
        }
    }
}

/// What an operator yields between operands of these types, if they fit.
pub(crate) fn yielded(operator: Operator, left: Ty, right: Ty) -> Option<Ty>
    ensures { result ≡ yields operator left right }
{
    match (operator, left, right) {
        (
            Operator::Add | Operator::Sub | Operator::Mult | Operator::Divi,
            Ty::Inteiro,
            Ty::Inteiro,
        ) => Some(Ty::Inteiro),
        (Operator::And | Operator::Or, Ty::Booleano, Ty::Booleano) => Some(Ty::Booleano),
        (
            Operator::Less
            | Operator::Greater
            | Operator::Equal
            | Operator::Unequal
            | Operator::AtMost
            | Operator::AtLeast,
            ..
        ) if left == right => Some(Ty::Booleano),
        _ => None,
    }
}

/// Whether a type is that of numbers.
// Kept beside `==`, since it is public.
pub fn is_inteiro(ty: Ty) -> bool
    ensures { result ≡ is_inteiro ty }
{
    ty == Ty::Inteiro
}
