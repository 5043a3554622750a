//! What operators do to values.
ghost use Rattle.std.specs.Prelude.{◌≡◌};
ghost use Rattle.model.specs.Values.{combine as combined, invert as inverted, deny as denied};
ghost use Rattle.machine.specs.Carried.{result_of, holding};

use model::faults::RunFault;
use model::script::Operator;

/// A value that has room in a cell.
fn held(value: Option<i32>) -> Result<i32, RunFault>
    ensures { result_of result ≡ holding value }
{
    value.ok_or(RunFault::NoValue)
}

/// The value that an operator gives, or the fault in its place.
pub(crate) fn combine(o: Operator, x: i32, y: i32) -> Result<i32, RunFault>
    ensures { result_of result ≡ combined o x y }
{
    match o {
        Operator::Add => held(x.checked_add(y)),
        Operator::Sub => held(x.checked_sub(y)),
        Operator::Mult => held(x.checked_mul(y)),
        Operator::Divi if y == 0 => Err(RunFault::ZeroDivisor),
        Operator::Divi => held(x.checked_div(y)),
        Operator::And => Ok(i32::from(x == 1 && y == 1)),
        Operator::Or => Ok(i32::from(x == 1 || y == 1)),
        Operator::Less => Ok(i32::from(x < y)),
        Operator::Greater => Ok(i32::from(x > y)),
        Operator::Equal => Ok(i32::from(x == y)),
        Operator::Unequal => Ok(i32::from(x != y)),
        Operator::AtMost => Ok(i32::from(x <= y)),
        Operator::AtLeast => Ok(i32::from(x >= y)),
    }
}

/// The value with the other sign, or the fault in its place.
pub(crate) fn invert(x: i32) -> Result<i32, RunFault>
    ensures { result_of result ≡ inverted x }
{
    held(x.checked_neg())
}

/// 1 less the value, or the fault in its place.
pub(crate) fn deny(x: i32) -> Result<i32, RunFault>
    ensures { result_of result ≡ denied x }
{
    held(1i32.checked_sub(x))
}
