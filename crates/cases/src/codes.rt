//! The codes of the machine by their names.
use crate::words::Flaw;
use model::ops::Op;
use model::script::Operator;

/// The instruction of a name, where it is the name of one.
fn named(word: &str) -> Option<Op> {
    let op = match word {
        "START" => Op::Start,
        "HLT" => Op::Hlt,
        "LDC" => Op::Ldc,
        "LDV" => Op::Ldv,
        "STR" => Op::Str,
        "ADD" => Op::Both(Operator::Add),
        "SUB" => Op::Both(Operator::Sub),
        "MULT" => Op::Both(Operator::Mult),
        "DIVI" => Op::Both(Operator::Divi),
        "INV" => Op::Inv,
        "AND" => Op::Both(Operator::And),
        "OR" => Op::Both(Operator::Or),
        "NEG" => Op::Neg,
        "CME" => Op::Both(Operator::Less),
        "CMA" => Op::Both(Operator::Greater),
        "CEQ" => Op::Both(Operator::Equal),
        "CDIF" => Op::Both(Operator::Unequal),
        "CMEQ" => Op::Both(Operator::AtMost),
        "CMAQ" => Op::Both(Operator::AtLeast),
        "JMP" => Op::Jmp,
        "JMPF" => Op::Jmpf,
        "RD" => Op::Rd,
        "PRN" => Op::Prn,
        "ALLOC" => Op::Alloc,
        "DALLOC" => Op::Dalloc,
        "CALL" => Op::Call,
        "RETURN" => Op::Return,
        _ => return None,
    };
    Some(op)
}

/// The code that a word names, or the number that it is.
pub fn code_of(word: &str) -> Result<u8, Flaw> {
    match named(word) {
        Some(op) => Ok(op.code()),
        None => word.parse().map_err(|_| Flaw::NoCode),
    }
}
