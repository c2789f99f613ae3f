use scale::{Grades, Scale, is_of_scale, is_present};

#[test]
fn products(rt: HostRuntime) {
    for (a, x, product) in [
        (None, 9, 0),
        (Some(9), 15, 9),
        (Some(9), 8, 8),
        (Some(0), 15, 0),
        (Some(15), 15, 15),
        (Some(15), 0, 0),
        (Some(16), 15, 0),
        (Some(-1), 15, 0),
        (Some(9), 16, 9),
        (Some(9), -1, 0),
        (Some(15), i32::MAX, 15),
        (Some(15), i32::MIN, 0),
        (Some(i32::MIN), 15, 0),
        (Some(i32::MAX), 15, 0),
    ] {
        assert_eq!(rt; Grades::product(a, x), product);
    }
}

#[test]
fn quotients(rt: HostRuntime) {
    for (a, b, quotient) in [
        (None, 0, 15),
        (Some(9), 9, 15),
        (Some(9), 10, 15),
        (Some(9), 8, 8),
        (Some(0), 0, 15),
        (Some(1), 0, 0),
        (Some(15), 14, 14),
        (Some(15), 15, 15),
        (Some(16), 3, 15),
        (Some(-1), 3, 15),
        (Some(9), -1, 0),
        (Some(9), i32::MAX, 15),
        (Some(9), i32::MIN, 0),
        (Some(i32::MIN), 3, 15),
        (Some(i32::MAX), 3, 15),
    ] {
        assert_eq!(rt; Grades::quotient(a, b), quotient);
    }
}

#[test]
fn numbers(rt: HostRuntime) {
    assert_eq!(rt; Grades::LOWEST, 0);
    assert_eq!(rt; Grades::HIGHEST, 15);
    assert_eq!(rt; Grades::LEAST_WINDOW, 0);
    assert_eq!(rt; Grades::GREATEST_WINDOW, 15);
    assert_eq!(rt; Grades::LEAST_COEFFICIENT, 0);
    assert_eq!(rt; Grades::GREATEST_COEFFICIENT, 15);
}

#[test]
fn presence(rt: HostRuntime) {
    assert!(rt; is_present::<Grades>(1));
    assert!(rt; is_present::<Grades>(15));
    assert!(rt; !is_present::<Grades>(0));
    assert!(rt; !is_present::<Grades>(16));
    assert!(rt; is_of_scale::<Grades>(0));
    assert!(rt; !is_of_scale::<Grades>(-1));
    assert!(rt; !is_of_scale::<Grades>(16));
}
