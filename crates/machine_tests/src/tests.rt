use host::lists::ListHost;
use machine::run::run;
use model::faults::RunFault;
use model::ops::Op;
use model::script::Operator;
use model::table::Entry;
use model::told::Told;
use pile::Pile;

// An entry with operand a; its place is 7.
fn entry(op: Op, a: i32) -> Entry {
    block(op, a, 0)
}

// An entry with both operands; its place is 7.
fn block(op: Op, a: i32, b: u16) -> Entry {
    Entry {
        code: op.code(),
        a,
        b,
        place: 7,
    }
}

// The tables below are written by instructions; these are the codes that they come to.
#[test]
fn instructions_have_the_codes_of_the_tables(rt: HostRuntime) {
    assert_eq!(rt; Op::Hlt.code(), 2);
    assert_eq!(rt; Op::Ldc.code(), 3);
    assert_eq!(rt; Op::Ldv.code(), 4);
    assert_eq!(rt; Op::Str.code(), 5);
    assert_eq!(rt; Op::Both(Operator::Sub).code(), 7);
    assert_eq!(rt; Op::Jmp.code(), 20);
    assert_eq!(rt; Op::Jmpf.code(), 21);
    assert_eq!(rt; Op::Rd.code(), 22);
    assert_eq!(rt; Op::Prn.code(), 23);
    assert_eq!(rt; Op::Alloc.code(), 24);
    assert_eq!(rt; Op::Dalloc.code(), 25);
    assert_eq!(rt; Op::Call.code(), 26);
    assert_eq!(rt; Op::Return.code(), 27);
}

#[test]
fn counts_down_from_what_it_reads(rt: HostRuntime) {
    let table = [
        block(Op::Alloc, 0, 1),
        entry(Op::Rd, 0),
        entry(Op::Str, 0),
        entry(Op::Ldv, 0),
        entry(Op::Jmpf, 11),
        entry(Op::Ldv, 0),
        entry(Op::Prn, 0),
        entry(Op::Ldv, 0),
        entry(Op::Ldc, 1),
        entry(Op::Both(Operator::Sub), 0),
        entry(Op::Jmp, 2),
        entry(Op::Hlt, 0),
    ];
    let mut cells = [0; 3];
    let mut output = [0; 9];
    let mut host = ListHost::new(&[3], &mut output);
    let mut at: usize = 0;
    let told = run(&table, &mut Pile::new(&mut cells), &mut at, &mut host, 100);
    assert_eq!(rt; told, Told::Ended { steps: 33 });
    assert_eq!(rt; host.written(), [3, 2, 1].as_slice());
}

#[test]
fn comes_back_from_a_call(rt: HostRuntime) {
    let table = [
        entry(Op::Call, 3),
        entry(Op::Call, 3),
        entry(Op::Hlt, 0),
        entry(Op::Rd, 0),
        entry(Op::Prn, 0),
        entry(Op::Return, 0),
    ];
    let mut cells = [0; 2];
    let mut output = [0; 2];
    let mut host = ListHost::new(&[8, 9], &mut output);
    let mut at: usize = 0;
    let told = run(&table, &mut Pile::new(&mut cells), &mut at, &mut host, 100);
    assert_eq!(rt; told, Told::Ended { steps: 9 });
    assert_eq!(rt; host.written(), [8, 9].as_slice());
    // the entry to come back to lay below the value that was read
    assert_eq!(rt; cells, [2, 9]);
}

#[test]
fn alloc_saves_and_clears_cells_and_dalloc_restores_them(rt: HostRuntime) {
    let table = [
        entry(Op::Ldc, 5),
        entry(Op::Ldc, 6),
        block(Op::Alloc, 0, 2),
        block(Op::Dalloc, 0, 2),
        entry(Op::Hlt, 0),
    ];
    let mut cells = [0, 0, 0, 0, 9];
    let mut pile = Pile::new(&mut cells);
    let mut host = ListHost::new(&[], &mut []);
    let mut at: usize = 0;
    assert_eq!(rt;
        run(&table, &mut pile, &mut at, &mut host, 3),
        Told::Running { steps: 3 }
    );
    assert_eq!(rt; pile.fill(), 4);
    assert_eq!(rt; pile.filled(), [0, 0, 5, 6].as_slice());
    assert_eq!(rt;
        run(&table, &mut pile, &mut at, &mut host, 9),
        Told::Ended { steps: 2 }
    );
    assert_eq!(rt; pile.fill(), 2);
    // the copies above the top are left
    assert_eq!(rt; cells, [5, 6, 5, 6, 9]);
}

#[test]
fn a_missing_value_is_told_before_a_bad_operand(rt: HostRuntime) {
    let table = [entry(Op::Str, -1)];
    let mut cells = [4];
    let mut host = ListHost::new(&[], &mut []);
    let mut at: usize = 0;
    let told = run(&table, &mut Pile::new(&mut cells), &mut at, &mut host, 9);
    assert_eq!(rt;
        told,
        Told::Stopped {
            fault: RunFault::FewValues,
            entry: 0,
            place: 7,
            steps: 0
        }
    );
    assert_eq!(rt; RunFault::FewValues.number(), 65);
    let mut at_filled: usize = 0;
    let told = run(
        &table,
        &mut Pile::over(&mut cells, 1),
        &mut at_filled,
        &mut host,
        9,
    );
    assert_eq!(rt;
        told,
        Told::Stopped {
            fault: RunFault::NoCell,
            entry: 0,
            place: 7,
            steps: 0
        }
    );
    assert_eq!(rt; RunFault::NoCell.number(), 66);
    assert_eq!(rt; cells, [4]);
}

#[test]
fn a_halt_is_a_step(rt: HostRuntime) {
    let table = [entry(Op::Ldc, 5), entry(Op::Hlt, 0)];
    let mut cells = [0];
    let mut pile = Pile::new(&mut cells);
    let mut host = ListHost::new(&[], &mut []);
    let mut at: usize = 0;
    assert_eq!(rt;
        run(&table, &mut pile, &mut at, &mut host, 1),
        Told::Running { steps: 1 }
    );
    assert_eq!(rt; at, 1);
    assert_eq!(rt;
        run(&table, &mut pile, &mut at, &mut host, 1),
        Told::Ended { steps: 1 }
    );
}

#[test]
fn a_fault_behind_a_spent_budget_is_told_by_the_next_run(rt: HostRuntime) {
    let table = [entry(Op::Ldc, 5), entry(Op::Ldc, 6)];
    let mut cells = [0];
    let mut pile = Pile::new(&mut cells);
    let mut host = ListHost::new(&[], &mut []);
    let mut at: usize = 0;
    assert_eq!(rt;
        run(&table, &mut pile, &mut at, &mut host, 1),
        Told::Running { steps: 1 }
    );
    assert_eq!(rt;
        run(&table, &mut pile, &mut at, &mut host, 1),
        Told::Stopped {
            fault: RunFault::CellsFull,
            entry: 1,
            place: 7,
            steps: 0
        }
    );
    assert_eq!(rt; RunFault::CellsFull.number(), 64);
    assert_eq!(rt; at, 1);
    assert_eq!(rt; cells, [5]);
}

#[test]
fn no_budget_does_nothing(rt: HostRuntime) {
    let table = [Entry {
        code: 200,
        ..entry(Op::Hlt, 0)
    }];
    let mut cells = [1, 2];
    let mut pile = Pile::over(&mut cells, 1);
    let mut host = ListHost::new(&[], &mut []);
    let mut at: usize = 0;
    assert_eq!(rt;
        run(&table, &mut pile, &mut at, &mut host, 0),
        Told::Running { steps: 0 }
    );
    assert_eq!(rt; at, 0);
    assert_eq!(rt; pile.fill(), 1);
    assert_eq!(rt;
        run(&table, &mut pile, &mut at, &mut host, 1),
        Told::Stopped {
            fault: RunFault::NoCode,
            entry: 0,
            place: 7,
            steps: 0
        }
    );
    assert_eq!(rt; RunFault::NoCode.number(), 68);
    assert_eq!(rt; cells, [1, 2]);
}

#[test]
fn past_the_last_entry_there_is_none(rt: HostRuntime) {
    let table = [entry(Op::Ldc, 5)];
    let mut cells = [0];
    let mut host = ListHost::new(&[], &mut []);
    let mut at: usize = 0;
    let told = run(&table, &mut Pile::new(&mut cells), &mut at, &mut host, 9);
    assert_eq!(rt;
        told,
        Told::Stopped {
            fault: RunFault::NoEntry,
            entry: 1,
            place: 0,
            steps: 1
        }
    );
    assert_eq!(rt; RunFault::NoEntry.number(), 67);
    assert_eq!(rt; at, 1);
}

#[test]
fn a_jump_out_of_the_table_is_not_made(rt: HostRuntime) {
    let table = [entry(Op::Jmp, 1), entry(Op::Jmp, 2)];
    let mut cells = [0];
    let mut host = ListHost::new(&[], &mut []);
    let mut at: usize = 0;
    let told = run(&table, &mut Pile::new(&mut cells), &mut at, &mut host, 9);
    assert_eq!(rt;
        told,
        Told::Stopped {
            fault: RunFault::NoEntry,
            entry: 1,
            place: 7,
            steps: 1
        }
    );
    assert_eq!(rt; RunFault::NoEntry.number(), 67);
    assert_eq!(rt; at, 1);
}

#[test]
fn a_value_waits_where_the_cells_are_full(rt: HostRuntime) {
    let table = [entry(Op::Rd, 0), entry(Op::Rd, 0), entry(Op::Hlt, 0)];
    let mut cells = [0];
    let mut host = ListHost::new(&[8, 9], &mut []);
    let mut at: usize = 0;
    let told = run(&table, &mut Pile::new(&mut cells), &mut at, &mut host, 9);
    assert_eq!(rt;
        told,
        Told::Stopped {
            fault: RunFault::CellsFull,
            entry: 1,
            place: 7,
            steps: 1
        }
    );
    assert_eq!(rt; RunFault::CellsFull.number(), 64);
    assert_eq!(rt; host.taken(), 1);
    assert_eq!(rt; cells, [8]);
}
