//! The machine's instructions, and the codes that stand for them in a table.
ghost use Rattle.std.specs.Prelude.{◌≡◌};
ghost use Rattle.model.specs.Ops.{code_of, Decodes};

use super::faults::RunFault;
use super::script::Operator;

/// An instruction, apart from its operands.
#[derive(Clone, Copy, PartialEq, Eq, Debug)]
pub enum Op {
    Start,
    Hlt,
    Ldc,
    Ldv,
    Str,
    /// What combines the two top values.
    Both(Operator),
    Inv,
    Neg,
    Jmp,
    Jmpf,
    Rd,
    Prn,
    Alloc,
    Dalloc,
    Call,
    Return,
}

impl Op {
    /// The code that stands for it.
    pub fn code(self) -> u8
        ensures { result ≡ code_of self }
    {
        match self {
            Op::Start => 1,
            Op::Hlt => 2,
            Op::Ldc => 3,
            Op::Ldv => 4,
            Op::Str => 5,
            Op::Both(Operator::Add) => 6,
            Op::Both(Operator::Sub) => 7,
            Op::Both(Operator::Mult) => 8,
            Op::Both(Operator::Divi) => 9,
            Op::Inv => 10,
            Op::Both(Operator::And) => 11,
            Op::Both(Operator::Or) => 12,
            Op::Neg => 13,
            Op::Both(Operator::Less) => 14,
            Op::Both(Operator::Greater) => 15,
            Op::Both(Operator::Equal) => 16,
            Op::Both(Operator::Unequal) => 17,
            Op::Both(Operator::AtMost) => 18,
            Op::Both(Operator::AtLeast) => 19,
            Op::Jmp => 20,
            Op::Jmpf => 21,
            Op::Rd => 22,
            Op::Prn => 23,
            Op::Alloc => 24,
            Op::Dalloc => 25,
            Op::Call => 26,
            Op::Return => 27,
        }
    }
}

/// The instruction of a code. Lent memory may hold any byte, so there need not be one.
impl TryFrom<u8> for Op {
    type Error = RunFault;

    ghost try_from_gives = { Decodes };

    fn try_from(code: u8) -> Result<Op, RunFault> {
        match code {
            1 => Ok(Op::Start),
            2 => Ok(Op::Hlt),
            3 => Ok(Op::Ldc),
            4 => Ok(Op::Ldv),
            5 => Ok(Op::Str),
            6 => Ok(Op::Both(Operator::Add)),
            7 => Ok(Op::Both(Operator::Sub)),
            8 => Ok(Op::Both(Operator::Mult)),
            9 => Ok(Op::Both(Operator::Divi)),
            10 => Ok(Op::Inv),
            11 => Ok(Op::Both(Operator::And)),
            12 => Ok(Op::Both(Operator::Or)),
            13 => Ok(Op::Neg),
            14 => Ok(Op::Both(Operator::Less)),
            15 => Ok(Op::Both(Operator::Greater)),
            16 => Ok(Op::Both(Operator::Equal)),
            17 => Ok(Op::Both(Operator::Unequal)),
            18 => Ok(Op::Both(Operator::AtMost)),
            19 => Ok(Op::Both(Operator::AtLeast)),
            20 => Ok(Op::Jmp),
            21 => Ok(Op::Jmpf),
            22 => Ok(Op::Rd),
            23 => Ok(Op::Prn),
            24 => Ok(Op::Alloc),
            25 => Ok(Op::Dalloc),
            26 => Ok(Op::Call),
            27 => Ok(Op::Return),
            _ => Err(RunFault::NoCode),
        }
    }
}
