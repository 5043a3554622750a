//! One instruction of a table, and a run with a budget.
ghost use Rattle.std.specs.Prelude.{◌≡◌, ◌+◌, ◌^◌, ◌<◌, length, slice_index_or};
ghost use Rattle.host.specs.Meaning.{Stays};
ghost use Rattle.model.specs.Machine.{step as stepped, no_entry};
ghost use Rattle.machine.specs.Carried.{machine_of, seen, reachable, onward as next_flow, Stepped, Ran};
ghost use Rattle.model.specs.Ops.{code_of};
ghost use Rattle.machine.specs.Ops.{instruction};

use crate::cells::{alter, both, load, load_constant, store};
use crate::current::Current;
use crate::exchange::{print, read};
use crate::frames::{allocate, release, start};
use crate::jumps::{call, go_back, jump, jump_on_zero};
use crate::values::{deny, invert};
use host::Host;
use model::faults::RunFault;
use model::ops::Op;
use model::table::Entry;
use model::told::Told;
use pile::Pile;

/// What becomes of a run after an instruction that was carried out.
// Not `Option<usize>`, whose `None` would not say that the run has ended.
#[derive(Clone, Copy, PartialEq, Eq, Debug)]
pub enum Flow {
    /// It goes on at this entry.
    Goes(usize),
    /// It has come to its end.
    Halts,
}

// An operand has 31 bits for an index.
const REACH: usize = i32::MAX as usize;

/// The entries that an operand can name.
fn reached(table: &[Entry]) -> &[Entry]
    ensures all { result.now ≡ reachable table.now }
    ensures short { length result.now < 2 ^ 31 }
{
    table.get(..REACH).unwrap_or(table)
}

/// Goes on to the next entry, where the instruction was carried out.
fn onward(now: Current<'_>, done: Result<(), RunFault>) -> Result<Flow, RunFault>
    ensures { result ≡ next_flow now.entry.at done }
{
    // Not by `and` or `map`: with them a counting loop took 1.5 times as long.
    done?;
    Ok(Flow::Goes(now.next()))
}

/// Carries out the instruction `op` of the current entry.
// By a `match`: the instructions are a closed enum, and no one else adds to them.
fn perform<H: Host>(
    op: Op,
    now: Current<'_>,
    cells: &mut Pile<i32>,
    host: &mut H,
) -> Result<Flow, RunFault>
    ensures does { Stepped (instruction (code_of op) (seen cells.old now.entry.at (H.Host.meaning host.old) now.entry.entry.now now.entry.entries)) cells.old (H.Host.meaning host.old) result cells.new (H.Host.meaning host.new) }
    ensures stays { Stays H.Host.since host.old host.new }
{
    let entry = now.entry;
    match op {
        Op::Start => onward(now, start(cells)),
        Op::Hlt => Ok(Flow::Halts),
        Op::Ldc => onward(now, load_constant(cells, entry)),
        Op::Ldv => onward(now, load(cells, entry)),
        Op::Str => onward(now, store(cells, entry)),
        Op::Both(o) => onward(now, both(cells, o)),
        Op::Inv => onward(now, alter(cells, invert)),
        Op::Neg => onward(now, alter(cells, deny)),
        Op::Jmp => jump(now).map(Flow::Goes),
        Op::Jmpf => jump_on_zero(cells, now).map(Flow::Goes),
        Op::Rd => onward(now, read(cells, host)),
        Op::Prn => onward(now, print(cells, host)),
        Op::Alloc => onward(now, allocate(cells, entry)),
        Op::Dalloc => onward(now, release(cells, entry)),
        Op::Call => call(cells, now).map(Flow::Goes),
        Op::Return => go_back(cells, now).map(Flow::Goes),
    }
}

/// Carries out the instruction at `at` of a table that is reached whole.
// Table, cells, entry and host stay apart, here and in `step` and `run`: with the entry behind a `&mut` each instruction
// stored and loaded it, and a run took a fifth longer.
fn go<H: Host>(
    table: &[Entry],
    cells: &mut Pile<i32>,
    at: usize,
    host: &mut H,
) -> Result<Flow, RunFault>
    requires { length table.now < 2 ^ 31 }
    ensures does { Stepped (stepped table.now (machine_of cells.old at) (H.Host.meaning host.old)) cells.old (H.Host.meaning host.old) result cells.new (H.Host.meaning host.new) }
    ensures stays { Stays H.Host.since host.old host.new }
{
    let entry = table.get(at).ok_or(RunFault::NoEntry)?;
    let op = Op::try_from(entry.code)?;
    let now = Current {
        entry,
        at,
        entries: table.len(),
    };
    perform(op, now, cells, host)
}

/// The place of an entry, or 0 past the code.
fn place_of(table: &[Entry], i: usize) -> u16
    ensures { result ≡ (slice_index_or table.now i no_entry).place }
{
    table.get(i).map_or(0, |e| e.place)
}

/// Carries out the instruction at `at`. One that cannot be carried out changes nothing.
pub fn step<H: Host>(
    table: &[Entry],
    cells: &mut Pile<i32>,
    at: usize,
    host: &mut H,
) -> Result<Flow, RunFault>
    ensures does { Stepped (stepped (reachable table.now) (machine_of cells.old at) (H.Host.meaning host.old)) cells.old (H.Host.meaning host.old) result cells.new (H.Host.meaning host.new) }
    ensures stays { Stays H.Host.since host.old host.new }
{
    go(reached(table), cells, at, host)
}

/// Carries out instructions until one halts, one cannot be carried out, or the budget is spent.
pub fn run<H: Host>(
    table: &[Entry],
    cells: &mut Pile<i32>,
    at: &mut usize,
    host: &mut H,
    budget: u32,
) -> Told
    ensures does { Ran budget table.now cells.old at.old (H.Host.meaning host.old) result cells.new at.new (H.Host.meaning host.new) }
    ensures stays { Stays H.Host.since host.old host.new }
{
    let code = reached(table);
    for steps in 0..budget {
        match go(code, cells, *at, host) {
            Ok(Flow::Goes(to)) => *at = to,
            Ok(Flow::Halts) => return Told::Ended { steps: steps + 1 },
            Err(fault) => {
                let entry = *at;
                let place = place_of(code, entry);
                return Told::Stopped {
                    fault,
                    entry,
                    place,
                    steps,
                };
            }
        }
    }
    Told::Running { steps: budget }
}
