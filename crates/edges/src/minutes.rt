use scale::{Minutes, Scale, is_present};

const Q: i32 = 1_000_000_000;

const VOID: i32 = -1_000_000_001;

const OPEN: i32 = 1_000_000_001;

#[test]
fn products(rt: HostRuntime) {
    for (a, x, product) in [
        (None, 97, VOID),
        (None, OPEN, VOID),
        (Some(3), 97, 100),
        (Some(3), VOID, VOID),
        (Some(3), OPEN, OPEN),
        (Some(3), Q, Q),
        (Some(-3), Q, 999_999_997),
        (Some(3), 999_999_999, Q),
        (Some(3), -Q, -999_999_997),
        (Some(-3), -Q, -Q),
        (Some(-3), -999_999_999, -Q),
        (Some(1_000_000), 999_000_000, Q),
        (Some(1_000_000), 999_000_001, Q),
        (Some(1_000_000), 0, 1_000_000),
        (Some(-1_000_000), 0, -1_000_000),
        (Some(1_000_001), 0, VOID),
        (Some(-1_000_001), 0, VOID),
        (Some(VOID), 5, VOID),
        (Some(i32::MIN), 5, VOID),
        (Some(i32::MAX), 5, VOID),
        (Some(3), i32::MIN, VOID),
        (Some(3), i32::MAX, OPEN),
        (Some(3), -1_000_000_002, VOID),
        (Some(3), 1_000_000_002, OPEN),
    ] {
        assert_eq!(rt; Minutes::product(a, x), product);
    }
}

#[test]
fn quotients(rt: HostRuntime) {
    for (a, b, quotient) in [
        (None, 5, OPEN),
        (None, VOID, OPEN),
        (Some(3), 100, 97),
        (Some(3), VOID, VOID),
        (Some(3), OPEN, OPEN),
        (Some(3), Q, Q),
        (Some(-3), Q, Q),
        (Some(3), 999_999_999, 999_999_996),
        (Some(-3), 999_999_999, Q),
        (Some(-3), 999_999_996, 999_999_999),
        (Some(-1), 999_999_999, Q),
        (Some(1), -999_999_999, -Q),
        (Some(2), -999_999_999, VOID),
        (Some(1), -Q, VOID),
        (Some(0), -Q, -Q),
        (Some(-1), -Q, -999_999_999),
        (Some(1_000_000), 0, -1_000_000),
        (Some(-1_000_000), 0, 1_000_000),
        (Some(1_000_001), 5, OPEN),
        (Some(-1_000_001), 5, OPEN),
        (Some(3), i32::MIN, VOID),
        (Some(3), i32::MAX, OPEN),
        (Some(i32::MIN), 5, OPEN),
        (Some(i32::MAX), 5, OPEN),
        (Some(5), -1_000_000_002, VOID),
        (Some(5), 1_000_000_002, OPEN),
    ] {
        assert_eq!(rt; Minutes::quotient(a, b), quotient);
    }
}

#[test]
fn numbers(rt: HostRuntime) {
    assert_eq!(rt; Minutes::LOWEST, VOID);
    assert_eq!(rt; Minutes::HIGHEST, OPEN);
    assert_eq!(rt; Minutes::LEAST_WINDOW, -1_000_000);
    assert_eq!(rt; Minutes::GREATEST_WINDOW, 1_000_000);
    assert_eq!(rt; Minutes::LEAST_COEFFICIENT, -1_000_000);
    assert_eq!(rt; Minutes::GREATEST_COEFFICIENT, 1_000_000);
}

#[test]
fn presence(rt: HostRuntime) {
    assert!(rt; is_present::<Minutes>(0));
    assert!(rt; is_present::<Minutes>(-1_000_000));
    assert!(rt; is_present::<Minutes>(1_000_000));
    assert!(rt; !is_present::<Minutes>(-1_000_001));
    assert!(rt; !is_present::<Minutes>(1_000_001));
    assert!(rt; !is_present::<Minutes>(VOID));
}
