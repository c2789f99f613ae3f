use crate::worked::{FILE, refusal, with_byte, with_number};

// Offset, part and line of every field of the worked file.
const FIELDS: [(usize, u8, usize); 24] = [
    (0, 0, 0),
    (1, 0, 0),
    (2, 0, 0),
    (3, 0, 0),
    (4, 0, 0),
    (5, 1, 0),
    (9, 1, 0),
    (13, 1, 0),
    (17, 1, 1),
    (21, 1, 1),
    (25, 1, 1),
    (29, 2, 0),
    (33, 2, 0),
    (37, 2, 1),
    (41, 2, 1),
    (45, 3, 0),
    (46, 3, 0),
    (50, 3, 0),
    (54, 3, 1),
    (55, 3, 1),
    (59, 3, 1),
    (63, 4, 0),
    (64, 4, 0),
    (68, 4, 0),
];

// The part, the line and the offset of the field that is due after so many bytes.
fn due(count: usize) -> (u8, usize, usize) {
    FIELDS
        .iter()
        .filter(|field| field.0 <= count)
        .last()
        .map_or((0, 0, 0), |field| (field.1, field.2, field.0))
}

#[test]
fn of_every_prefix(rt: HostRuntime) {
    // the number is the length of a prefix
    for count in 0..72usize {
        let (part, line, byte) = due(count);
        assert_eq!(rt; refusal(&FILE[0..count]), Some((1, part, line, byte)));
    }
}

#[test]
fn of_bytes(rt: HostRuntime) {
    for (at, value, number, part, line) in [
        (0, 0, 2, 0, 0),
        (0, 2, 2, 0, 0),
        (0, 255, 2, 0, 0),
        (1, 0, 3, 0, 0),
        (1, 3, 3, 0, 0),
        (2, 0, 4, 0, 0),
        (2, 33, 4, 0, 0),
        (3, 0, 4, 0, 0),
        (3, 33, 4, 0, 0),
        (4, 0, 4, 0, 0),
        (4, 255, 4, 0, 0),
        (45, 4, 5, 3, 0),
        (54, 128, 5, 3, 1),
        (63, 7, 5, 4, 0),
    ] {
        assert_eq!(rt;
            refusal(&with_byte(at, value)),
            Some((number, part, line, at))
        );
    }
}

#[test]
fn of_maps_and_coefficients(rt: HostRuntime) {
    for (at, value, number, part, line) in [
        (5, 4, 5, 1, 0),
        (5, i32::MIN, 5, 1, 0),
        (17, 7, 5, 1, 1),
        (29, 2, 5, 2, 0),
        (37, -1, 5, 2, 1),
        (9, 1_000_001, 6, 1, 0),
        (25, -1_000_001, 6, 1, 1),
        (33, i32::MIN, 6, 2, 0),
        (41, -1_000_000_001, 6, 2, 1),
    ] {
        assert_eq!(rt;
            refusal(&with_number(at, value)),
            Some((number, part, line, at))
        );
    }
}

#[test]
fn of_windows(rt: HostRuntime) {
    for (at, value, number, part, line, byte) in [
        (46, -1_000_001, 7, 3, 0, 46),
        (59, i32::MAX, 7, 3, 1, 59),
        (64, 1_000_001, 7, 4, 0, 64),
        (68, 1_000_001, 7, 4, 0, 68),
        (46, 101, 8, 3, 0, 45),
        (59, -1, 8, 3, 1, 54),
        (64, 101, 8, 4, 0, 63),
    ] {
        assert_eq!(rt;
            refusal(&with_number(at, value)),
            Some((number, part, line, byte))
        );
    }
}

#[test]
fn of_extra_bytes(rt: HostRuntime) {
    let mut longer = [0; 74];
    longer[0..72].copy_from_slice(&FILE);
    assert_eq!(rt; refusal(&longer[0..73]), Some((9, 5, 0, 72)));
    assert_eq!(rt; refusal(&longer), Some((9, 5, 0, 72)));
}

#[test]
fn of_the_first_place(rt: HostRuntime) {
    assert_eq!(rt; refusal(&[]), Some((1, 0, 0, 0)));
    assert_eq!(rt; refusal(&[2]), Some((2, 0, 0, 0)));
    assert_eq!(rt; refusal(&[1]), Some((1, 0, 0, 1)));
    assert_eq!(rt; refusal(&[1, 7]), Some((3, 0, 0, 1)));
    assert_eq!(rt; refusal(&[1, 2, 0, 0, 0]), Some((4, 0, 0, 2)));
    // a coefficient out of its range comes before the one that is missing after it
    let file = with_number(9, 1_000_001);
    assert_eq!(rt; refusal(&file[0..13]), Some((6, 1, 0, 9)));
}
