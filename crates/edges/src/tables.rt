use network::{Network, Refusal};
use scale::{Grades, Minutes};
use std::test::Fail;
use table::Table;

const CELLS: [Option<i32>; 1056] = [Some(1); 1056];

#[test]
fn sizes(rt: HostRuntime) {
    for (stations, benches, count, number) in [
        (0, 0, 0, Some(4)),
        (0, 1, 0, Some(4)),
        (1, 0, 0, Some(4)),
        (33, 32, 1056, Some(4)),
        (32, 33, 1056, Some(4)),
        (33, 1, 7, Some(4)),
        (usize::MAX, 2, 7, Some(4)),
        (32, 32, 1024, None),
        (1, 1, 1, None),
        (32, 32, 1023, Some(12)),
        (2, 3, 5, Some(12)),
        (2, 3, 7, Some(12)),
        (1, 1, 0, Some(12)),
    ] {
        assert!(rt; count <= 1056);
        let refusal = Table::<Minutes>::new(stations, benches, &CELLS[..count]).err();
        assert_eq!(rt; refusal.map(|e| e.number()), number);
    }
}

#[test]
fn cells(rt: HostRuntime) -> Result<(), Fail> {
    let given = [
        Some(3),
        None,
        Some(-1_000_000),
        Some(1_000_001),
        Some(i32::MIN),
        Some(0),
    ];
    let t = Table::<Minutes>::new(2, 3, &given)?;
    assert_eq!(rt; t.stations(), 2);
    assert_eq!(rt; t.benches(), 3);
    assert_eq!(rt; t.cell(0, 0), Some(3));
    assert_eq!(rt; t.cell(0, 1), None);
    assert_eq!(rt; t.cell(0, 2), Some(-1_000_000));
    assert_eq!(rt; t.cell(1, 0), None);
    assert_eq!(rt; t.cell(1, 1), None);
    assert_eq!(rt; t.cell(1, 2), Some(0));
    assert_eq!(rt; t.cell(2, 0), None);
    assert_eq!(rt; t.cell(0, 3), None);
    Ok(())
}

#[test]
fn grade_cells(rt: HostRuntime) -> Result<(), Fail> {
    let t = Table::<Grades>::new(1, 3, &[Some(0), Some(15), Some(16)])?;
    assert_eq!(rt; t.cell(0, 0), None);
    assert_eq!(rt; t.cell(0, 1), Some(15));
    assert_eq!(rt; t.cell(0, 2), None);
    Ok(())
}

#[test]
fn arrivals_and_latest(rt: HostRuntime) -> Result<(), Fail> {
    let given = [Some(3), Some(0), None, Some(1), None, None];
    let t = Table::<Minutes>::new(2, 3, &given)?;
    let mut reached = [0; 2];
    assert_eq!(rt; t.arrivals(&[10, 20, 30], &mut reached), Ok(()));
    assert_eq!(rt; reached, [20, 11]);
    let mut starts = [0; 3];
    assert_eq!(rt; t.latest(&[50, 40], &mut starts), Ok(()));
    assert_eq!(rt; starts, [39, 50, 1_000_000_001]);
    assert_eq!(rt; t.latest(&[50, 40, 30], &mut starts), Err(Refusal::Lengths));
    assert_eq!(rt; starts, [39, 50, 1_000_000_001]);
    Ok(())
}

#[test]
fn no_coefficient(rt: HostRuntime) -> Result<(), Fail> {
    let t = Table::<Minutes>::new(1, 1, &[None])?;
    let mut one = [0];
    assert_eq!(rt; t.arrivals(&[5], &mut one), Ok(()));
    assert_eq!(rt; one, [-1_000_000_001]);
    assert_eq!(rt; t.latest(&[5], &mut one), Ok(()));
    assert_eq!(rt; one, [1_000_000_001]);
    Ok(())
}
