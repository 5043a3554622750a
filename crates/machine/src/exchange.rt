//! The instructions that take from the host and put to it.
ghost use Rattle.host.specs.Meaning.{Stays};
ghost use Rattle.model.specs.declared.table.Entry.{Entry};
ghost use Rattle.model.specs.Codes as Codes;
ghost use Rattle.machine.specs.Carried.{Exchanged};
ghost use Rattle.machine.specs.Ops.{instruction};

use crate::cells::{drop_top, fault_of, top};
use host::Host;
use model::faults::RunFault;
use pile::Pile;

/// RD: the first value that waits onto the cells.
pub(crate) fn read<H: Host>(cells: &mut Pile<i32>, host: &mut H) -> Result<(), RunFault>
    ensures does { (e : Entry) → Exchanged (instruction Codes.RD) cells.old (H.Host.meaning host.old) e result cells.new (H.Host.meaning host.new) }
    ensures stays { Stays H.Host.since host.old host.new }
{
    // A value is taken only where there is room for it, so that none is lost.
    if cells.is_full() {
        return Err(RunFault::CellsFull);
    }
    let value = host.take().ok_or(RunFault::NothingWaiting)?;
    cells.lay(value).map_err(fault_of)
}

/// PRN: the top value to the host.
pub(crate) fn print<H: Host>(cells: &mut Pile<i32>, host: &mut H) -> Result<(), RunFault>
    ensures does { (e : Entry) → Exchanged (instruction Codes.PRN) cells.old (H.Host.meaning host.old) e result cells.new (H.Host.meaning host.new) }
    ensures stays { Stays H.Host.since host.old host.new }
{
    let value = top(cells)?;
    host.put(value).map_err(|_| RunFault::OutputFull)?;
    drop_top(cells);
    Ok(())
}
