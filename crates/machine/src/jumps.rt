//! The instructions that go on elsewhere in the table. Each answers the entry to go on at.
ghost use Rattle.std.specs.Prelude.{ℤ};
ghost use Rattle.pile.specs.declared.Pile.{Pile};
ghost use Rattle.model.specs.Codes as Codes;
ghost use Rattle.machine.specs.Carried.{Jumped};
ghost use Rattle.machine.specs.Ops.{instruction};

use crate::cells::{drop_top, fault_of, top};
use crate::current::Current;
use model::faults::RunFault;
use pile::Pile;

/// JMPF: to entry `a` where the top value is 0; the value is dropped.
pub(crate) fn jump_on_zero(cells: &mut Pile<i32>, now: Current<'_>) -> Result<usize, RunFault>
    ensures { Jumped (instruction Codes.JMPF) cells.old now.entry.at now.entry.entry.now now.entry.entries result cells.new }
{
    let to = if top(cells)? == 0 {
        now.target(now.entry.a)?
    } else {
        now.next()
    };
    drop_top(cells);
    Ok(to)
}

/// JMP: to entry `a`.
pub(crate) fn jump(now: Current<'_>) -> Result<usize, RunFault>
    ensures { (p : Pile ℤ) → Jumped (instruction Codes.JMP) p now.entry.at now.entry.entry.now now.entry.entries result p }
{
    now.target(now.entry.a)
}

/// CALL: the entry to come back to onto the cells, and to entry `a`.
pub(crate) fn call(cells: &mut Pile<i32>, now: Current<'_>) -> Result<usize, RunFault>
    ensures { Jumped (instruction Codes.CALL) cells.old now.entry.at now.entry.entry.now now.entry.entries result cells.new }
{
    let to = now.target(now.entry.a)?;
    cells.lay(now.next() as i32).map_err(fault_of)?;
    Ok(to)
}

/// RETURN: to the entry that the top value tells; the value is dropped.
pub(crate) fn go_back(cells: &mut Pile<i32>, now: Current<'_>) -> Result<usize, RunFault>
    ensures { Jumped (instruction Codes.RETURN) cells.old now.entry.at now.entry.entry.now now.entry.entries result cells.new }
{
    let to = now.target(top(cells)?)?;
    drop_top(cells);
    Ok(to)
}
