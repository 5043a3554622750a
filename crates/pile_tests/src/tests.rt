use pile::{Pile, Refusal};

#[derive(Clone, Copy, PartialEq, Eq, Debug)]
struct Pair(u8, bool);

#[test]
fn lays_and_takes_in_turn(rt: HostRuntime) {
    let mut memory = [9, 9, 9];
    let mut pile = Pile::new(&mut memory);
    assert_eq!(rt; pile.lay(4), Ok(()));
    assert_eq!(rt; pile.lay(5), Ok(()));
    assert_eq!(rt; pile.fill(), 2);
    assert_eq!(rt; pile.take(), Ok(5));
    assert_eq!(rt; pile.take(), Ok(4));
    assert_eq!(rt; pile.take(), Err(Refusal::Absent));
    assert_eq!(rt; Refusal::Absent.number(), 2);
    assert_eq!(rt; memory, [4, 5, 9]);
}

#[test]
fn a_full_pile_refuses_with_one(rt: HostRuntime) {
    let mut memory = [0i32; 2];
    let mut pile = Pile::over(&mut memory, 1);
    assert_eq!(rt; pile.lay(-7), Ok(()));
    assert_eq!(rt; pile.lay(8), Err(Refusal::Full));
    assert_eq!(rt; Refusal::Full.number(), 1);
    assert_eq!(rt; pile.fill(), 2);
    assert_eq!(rt; memory, [0, -7]);
}

#[test]
fn reads_and_changes_filled_places_alone(rt: HostRuntime) {
    let mut memory = [Pair(1, false), Pair(2, false), Pair(3, false)];
    let mut pile = Pile::over(&mut memory, 2);
    assert_eq!(rt; pile.change(1, Pair(7, true)), Ok(()));
    assert_eq!(rt; pile.change(2, Pair(8, true)), Err(Refusal::Absent));
    assert_eq!(rt; pile.read(2), Err(Refusal::Absent));
    assert_eq!(rt; pile.read(1), Ok(Pair(7, true)));
    assert_eq!(rt; memory[2], Pair(3, false));
}

#[test]
fn cutting_changes_only_the_fill(rt: HostRuntime) {
    let mut memory = [1u8, 2, 3, 4];
    let mut pile = Pile::over(&mut memory, 9);
    assert_eq!(rt; pile.fill(), 4);
    assert_eq!(rt; pile.cut(1), Ok(()));
    assert_eq!(rt; pile.cut(2), Err(Refusal::Absent));
    assert_eq!(rt; pile.fill(), 1);
    let (cells, fill) = pile.into_parts();
    assert_eq!(rt; fill, 1);
    assert_eq!(rt; cells.len(), 4);
    assert_eq!(rt; memory, [1, 2, 3, 4]);
}

#[test]
fn lends_the_filled_places(rt: HostRuntime) {
    let mut memory = [7u8, 8, 9];
    let pile = Pile::over(&mut memory, 2);
    assert_eq!(rt; pile.filled(), [7, 8].as_slice());
}

#[test]
fn updates_from_a_place_up_to_the_top(rt: HostRuntime) {
    let mut memory = [1u8, 2, 3, 4];
    let mut pile = Pile::over(&mut memory, 3);
    pile.update(1, |x| x ^ 8);
    assert_eq!(rt; pile.filled(), [1, 10, 11].as_slice());
    pile.update(3, |_| 0);
    pile.update(9, |_| 0);
    assert_eq!(rt; pile.fill(), 3);
    assert_eq!(rt; memory, [1, 10, 11, 4]);
}
