use crate::sound::minutes;
use crate::worked::refusal;
use std::test::Fail;

// 32 stations and 32 benches a side, every bit: 5 bytes of head, 64 rows of 132 bytes, 64 maps of windows.
const COUNT: usize = 8517;

fn put(file: &mut [u8], at: usize, value: u8) {
    if let Some(byte) = file.get_mut(at) {
        *byte = value;
    }
}

// A row at an offset: the coefficient of bench j is j.
fn put_row(file: &mut [u8], at: usize) {
    if let Some(map) = file.get_mut(at..at.saturating_add(4)) {
        map.fill(255);
    }
    // the number is the coefficient, and its offset
    for j in 0..32u8 {
        put(file, at.wrapping_add(7).wrapping_add(4 * usize::from(j)), j);
    }
}

fn full() -> [u8; COUNT] {
    let mut file = [0; COUNT];
    put_all(&mut file, &[(0, 1), (1, 1), (2, 32), (3, 32), (4, 32)]);
    put_rows(&mut file);
    file
}

fn put_rows(file: &mut [u8]) {
    // by offsets, as the file stands
    for row in 0..64usize {
        put_row(file, 5 + 132 * row);
    }
}

fn put_all(file: &mut [u8], places: &[(usize, u8)]) {
    for (at, value) in places {
        put(file, *at, *value);
    }
}

#[test]
fn the_largest_file(rt: HostRuntime) -> Result<(), Fail> {
    let file = full();
    let plan = minutes(&file)?;
    assert_eq!(rt; plan.left.cell(0, 0), Some(0));
    assert_eq!(rt; plan.left.cell(0, 31), Some(31));
    assert_eq!(rt; plan.left.cell(31, 31), Some(31));
    assert_eq!(rt; plan.right.cell(31, 30), Some(30));
    assert_eq!(rt; plan.right.cell(31, 32), None);
    assert_eq!(rt; plan.lefts.as_slice().len(), 32);
    assert_eq!(rt; plan.rights.as_slice().len(), 32);
    Ok(())
}

#[test]
fn the_largest_file_with_faults(rt: HostRuntime) {
    let file = full();
    // the last coefficient of the left network, the first row of the right, the last window
    assert_eq!(rt; refusal(&file[0..4228]), Some((1, 1, 31, 4225)));
    assert_eq!(rt; refusal(&file[0..4229]), Some((1, 2, 0, 4229)));
    assert_eq!(rt; refusal(&file[0..8516]), Some((1, 4, 31, 8516)));
    let mut last = full();
    put(&mut last, 8449, 127);
    assert_eq!(rt; refusal(&last), Some((6, 2, 31, 8449)));
    put(&mut last, 8449, 0);
    put(&mut last, 8516, 4);
    assert_eq!(rt; refusal(&last), Some((5, 4, 31, 8516)));
}

#[test]
fn the_top_bit(rt: HostRuntime) -> Result<(), Fail> {
    // one station, 32 left benches and one right bench; the only left coefficient is that of bench 31
    let mut file = [0; 51];
    put_all(
        &mut file,
        &[(0, 1), (1, 1), (2, 1), (3, 32), (4, 1), (5, 128), (12, 7)],
    );
    assert_eq!(rt; refusal(&file[0..49]), Some((1, 4, 0, 49)));
    let plan = minutes(&file[0..50])?;
    assert_eq!(rt; plan.left.cell(0, 31), Some(7));
    assert_eq!(rt; plan.left.cell(0, 0), None);
    assert_eq!(rt; refusal(&file), Some((9, 5, 0, 50)));
    // of 31 benches the same bit stands for nothing
    put(&mut file, 3, 31);
    assert_eq!(rt; refusal(&file), Some((5, 1, 0, 5)));
    Ok(())
}
