use crate::counting::Countdown;
use crate::passing::{pass_listed, pass_many, pass_on, pass_taped};
use host::lists::ListHost;
use host::tapes::TapeHost;
use host::{Host, PutRefusal};

#[test]
fn list_host_takes_in_order(rt: HostRuntime) {
    let source = [3, -4];
    let mut sink = [0];
    let mut host = ListHost::new(&source, &mut sink);
    assert_eq!(rt; host.taken(), 0);
    assert_eq!(rt; host.take(), Some(3));
    assert_eq!(rt; host.take(), Some(-4));
    assert_eq!(rt; host.take(), None);
    assert_eq!(rt; host.taken(), 2);
}

#[test]
fn list_host_refuses_when_full(rt: HostRuntime) {
    let mut sink = [9, 9, 9];
    let mut host = ListHost::new(&[], &mut sink);
    assert_eq!(rt; host.put(5), Ok(()));
    assert_eq!(rt; host.written(), [5].as_slice());
    assert_eq!(rt; host.put(-6), Ok(()));
    assert_eq!(rt; host.put(7), Ok(()));
    assert_eq!(rt; host.put(8), Err(PutRefusal::Full));
    assert_eq!(rt; host.written(), [5, -6, 7].as_slice());
}

#[test]
fn tape_host_reads_values(rt: HostRuntime) {
    let source = [86, 0, 0, 0, 41, 86, 255, 255, 255, 255];
    let mut sink = [];
    let mut host = TapeHost::new(&source, &mut sink);
    assert_eq!(rt; host.take(), Some(41));
    assert_eq!(rt; host.take(), Some(-1));
    assert_eq!(rt; host.take(), None);
    assert_eq!(rt; host.taken(), 2);
}

#[test]
fn tape_host_writes_values(rt: HostRuntime) {
    let mut sink = [0; 15];
    let mut host = TapeHost::new(&[], &mut sink);
    assert_eq!(rt; host.put(41), Ok(()));
    assert_eq!(rt; host.put(-1), Ok(()));
    assert_eq!(rt;
        host.written(),
        [86, 0, 0, 0, 41, 86, 255, 255, 255, 255].as_slice()
    );
}

#[test]
fn tape_stops_at_another_first_byte(rt: HostRuntime) {
    let source = [86, 0, 0, 0, 7, 85, 0, 0, 0, 8, 86, 0, 0, 0, 9];
    let mut sink = [];
    let mut host = TapeHost::new(&source, &mut sink);
    assert_eq!(rt; host.take(), Some(7));
    assert_eq!(rt; host.take(), None);
    assert_eq!(rt; host.take(), None);
    assert_eq!(rt; host.taken(), 1);
}

#[test]
fn tape_stops_at_four_bytes(rt: HostRuntime) {
    let source = [86, 1, 2, 3, 4, 86, 0, 0, 0];
    let mut sink = [];
    let mut host = TapeHost::new(&source, &mut sink);
    assert_eq!(rt; host.take(), Some(16909060));
    assert_eq!(rt; host.take(), None);
}

#[test]
fn nine_bytes_have_room_for_one_value(rt: HostRuntime) {
    let mut sink = [1, 2, 3, 4, 5, 6, 7, 8, 9];
    let mut host = TapeHost::new(&[], &mut sink);
    assert_eq!(rt; host.put(-2), Ok(()));
    assert_eq!(rt; host.put(3), Err(PutRefusal::Full));
    assert_eq!(rt; host.written(), [86, 255, 255, 255, 254].as_slice());
    assert_eq!(rt; sink, [86, 255, 255, 255, 254, 6, 7, 8, 9]);
}

#[test]
fn a_host_of_ones_own_counts_down(rt: HostRuntime) {
    let mut host = Countdown {
        next: 3,
        last: None,
    };
    pass_many(&mut host, 2);
    assert_eq!(rt; host.take(), Some(1));
    assert_eq!(rt; host.take(), None);
    assert_eq!(rt; host.last, Some(3));
}

#[test]
fn passes_from_list_to_list(rt: HostRuntime) {
    let mut sink = [1, 1, 1, 1];
    assert_eq!(rt; pass_listed(&[7, 8], &mut sink, 3), 2);
    assert_eq!(rt; sink, [7, 8, 0, 1]);
}

#[test]
fn passes_from_tape_to_tape(rt: HostRuntime) {
    let source = [86, 0, 0, 1, 0, 86, 128, 0, 0, 0];
    let mut sink = [9; 12];
    assert_eq!(rt; pass_taped(&source, &mut sink, 3), 2);
    assert_eq!(rt; sink, [86, 0, 0, 1, 0, 86, 128, 0, 0, 0, 9, 9]);
}

#[test]
fn goes_on_with_a_tape_in_use(rt: HostRuntime) {
    let source = [86, 0, 0, 0, 5, 86, 0, 0, 0, 6];
    let mut sink = [0; 5];
    let mut host = TapeHost::new(&source, &mut sink);
    assert_eq!(rt; host.take(), Some(5));
    pass_on(&mut host, 1);
    assert_eq!(rt; host.written(), [86, 0, 0, 0, 6].as_slice());
}
