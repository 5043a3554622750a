//! The instructions that work on the cells alone.
ghost use Rattle.std.specs.Prelude.{◌≡◌, suc, ℤ, ◌-◌, ◌<◌, ◌≤◌, slice_set};
ghost use Rattle.pile.specs.Piles.{memory, fill_of};
ghost use Rattle.model.specs.declared.table.Entry.{Entry};
ghost use Rattle.model.specs.Codes as Codes;
ghost use Rattle.model.specs.Machine.{one, two, top as top_of};
ghost use Rattle.model.specs.Values.{Result as Outcome};
ghost use Rattle.machine.specs.Carried.{refused, machine_of, Means, Indexed, Valued, Topped, Filled, Done};
ghost use Rattle.machine.specs.Ops.{instruction};

use crate::values::combine;
use model::faults::RunFault;
use model::script::Operator;
use model::table::Entry;
use pile::{Pile, Refusal};

/// What a pile of cells refuses is a fault: a value for which it has no room, or a cell that is not filled.
// Not a `From`: where entries or names are piled, the same refusal is no fault of a run.
pub(crate) fn fault_of(refusal: Refusal) -> RunFault
    ensures { result ≡ refused refusal }
{
    match refusal {
        Refusal::Full => RunFault::CellsFull,
        Refusal::Absent => RunFault::NoCell,
    }
}

/// The index that an operand is.
pub(crate) fn index(a: i32) -> Result<usize, RunFault>
    ensures { Indexed a result }
{
    usize::try_from(a).map_err(|_| RunFault::NoCell)
}

/// The value of a filled cell.
fn value_at(cells: &Pile<i32>, i: usize) -> Result<i32, RunFault>
    ensures { Valued cells.now i result }
{
    cells.read(i).map_err(fault_of)
}

/// The top value.
pub(crate) fn top(cells: &Pile<i32>) -> Result<i32, RunFault>
    ensures { Topped cells.now result }
{
    cells.filled().last().copied().ok_or(RunFault::FewValues)
}

/// Drops the top value.
pub(crate) fn drop_top(cells: &mut Pile<i32>)
    requires { 1 ≤ fill_of cells.old }
    ensures { Filled cells.old (memory cells.old) (fill_of cells.old - 1) cells.new }
{
    // There is a top, so nothing is refused.
    let _ = cells.take();
}

/// Puts a value in the place of a filled one and of all that lie on it.
fn replace(cells: &mut Pile<i32>, place: usize, value: i32)
    requires { place < fill_of cells.old }
    ensures { Filled cells.old (slice_set (memory cells.old) place value) (suc place) cells.new }
{
    // The place is filled, so nothing is refused.
    let _ = cells.change(place, value);
    let _ = cells.cut(place + 1);
}

/// LDC: operand `a` onto the cells.
pub(crate) fn load_constant(cells: &mut Pile<i32>, e: &Entry) -> Result<(), RunFault>
    ensures { Done (instruction Codes.LDC) cells.old e.now result cells.new }
{
    cells.lay(e.a).map_err(fault_of)
}

/// LDV: what cell `a` holds onto the cells.
pub(crate) fn load(cells: &mut Pile<i32>, e: &Entry) -> Result<(), RunFault>
    ensures { Done (instruction Codes.LDV) cells.old e.now result cells.new }
{
    let from = index(e.a)?;
    let value = value_at(cells, from)?;
    cells.lay(value).map_err(fault_of)
}

/// STR: the top value to cell `a`.
pub(crate) fn store(cells: &mut Pile<i32>, e: &Entry) -> Result<(), RunFault>
    ensures { Done (instruction Codes.STR) cells.old e.now result cells.new }
{
    let value = top(cells)?;
    let to = index(e.a)?;
    cells.change(to, value).map_err(fault_of)?;
    drop_top(cells);
    Ok(())
}

/// What the two top values give, in their place.
pub(crate) fn both(cells: &mut Pile<i32>, o: Operator) -> Result<(), RunFault>
    ensures { (e : Entry) → Done (two o) cells.old e result cells.new }
{
    // By a test: with `checked_sub(2)` and `?` the proof of the first value's fault did not close.
    let n = cells.fill();
    if n < 2 {
        return Err(RunFault::FewValues);
    }
    let x = value_at(cells, n - 2)?;
    let y = value_at(cells, n - 1)?;
    let value = combine(o, x, y)?;
    replace(cells, n - 2, value);
    Ok(())
}

/// What `f` gives of the top value, in its place.
pub(crate) fn alter<F: Fn(i32) -> Result<i32, RunFault> + Drop>(
    cells: &mut Pile<i32>,
    f: F,
) -> Result<(), RunFault>
    requires { F.IsAlwaysCallable f }
    ensures { (e : Entry) (g : ℤ → Outcome) → Means (F.post f) g (top_of (machine_of cells.old 0)) → Done (one g) cells.old e result cells.new }
{
    let value = f(top(cells)?)?;
    replace(cells, cells.fill() - 1, value);
    Ok(())
}
