//! The instructions that make room for a block's cells and give it back.
ghost use Rattle.model.specs.declared.table.Entry.{Entry};
ghost use Rattle.model.specs.Codes as Codes;
ghost use Rattle.machine.specs.Carried.{Done};
ghost use Rattle.machine.specs.Ops.{instruction};

use crate::cells::{fault_of, index};
use model::faults::RunFault;
use model::table::Entry;
use pile::Pile;

/// ALLOC: `b` cells more, cleared, or the `b` cells from `a` on are saved there, and cleared.
pub(crate) fn allocate(cells: &mut Pile<i32>, e: &Entry) -> Result<(), RunFault>
    ensures { Done (instruction Codes.ALLOC) cells.old e.now result cells.new }
{
    let from = index(e.a)?;
    let count = usize::from(e.b);
    if from == cells.fill() {
        cells.lay_times(0, count).map_err(fault_of)
    } else {
        cells.lift(from, count, 0).map_err(fault_of)
    }
}

/// DALLOC: the top `b` values are dropped, or go back to cell `a` and on.
pub(crate) fn release(cells: &mut Pile<i32>, e: &Entry) -> Result<(), RunFault>
    ensures { Done (instruction Codes.DALLOC) cells.old e.now result cells.new }
{
    let count = usize::from(e.b);
    let left = cells.fill().checked_sub(count).ok_or(RunFault::FewValues)?;
    let to = index(e.a)?;
    if to == left {
        cells.cut(left).map_err(fault_of)
    } else {
        cells.lower(count, to).map_err(fault_of)
    }
}

/// START: no cell is filled.
pub(crate) fn start(cells: &mut Pile<i32>) -> Result<(), RunFault>
    ensures { (e : Entry) → Done (instruction Codes.START) cells.old e result cells.new }
{
    cells.cut(0).map_err(fault_of)
}
