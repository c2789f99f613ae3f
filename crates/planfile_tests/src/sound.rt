use crate::worked::{FILE, with_number};
use model::Window;
use planfile::{Contents, PlanFile, read_plan};
use scale::{Grades, Minutes};
use std::test::Fail;

pub(crate) fn minutes(file: &[u8]) -> Result<Contents<Minutes>, Fail> {
    let Ok(PlanFile::Minutes(contents)) = read_plan(file) else {
        return Err(Fail::new("no plan in minutes"));
    };
    Ok(contents)
}

// Of the shape of `minutes`, over another variant and another type.
fn grades(file: &[u8]) -> Result<Contents<Grades>, Fail> {
    let Ok(PlanFile::Grades(contents)) = read_plan(file) else {
        return Err(Fail::new("no plan in grades"));
    };
    Ok(contents)
}

fn window(floor: i32, ceiling: i32) -> Window {
    Window { floor, ceiling }
}

#[test]
fn the_worked_file(rt: HostRuntime) -> Result<(), Fail> {
    let plan = minutes(&FILE)?;
    assert_eq!(rt; plan.left.cell(0, 0), Some(3));
    assert_eq!(rt; plan.left.cell(0, 1), Some(0));
    assert_eq!(rt; plan.left.cell(1, 0), Some(1));
    assert_eq!(rt; plan.left.cell(1, 1), Some(2));
    assert_eq!(rt; plan.left.cell(1, 2), None);
    assert_eq!(rt; plan.right.cell(0, 0), Some(0));
    assert_eq!(rt; plan.right.cell(1, 0), Some(0));
    assert_eq!(rt; plan.lefts.as_slice().len(), 2);
    assert_eq!(rt; plan.rights.as_slice().len(), 1);
    assert_eq!(rt; plan.lefts.as_slice().get(0).copied(), Some(window(0, 100)));
    assert_eq!(rt; plan.lefts.as_slice().get(1).copied(), Some(window(0, 100)));
    assert_eq!(rt;
        plan.rights.as_slice().get(0).copied(),
        Some(window(0, 100))
    );
    Ok(())
}

#[test]
fn the_windows_of_a_side(rt: HostRuntime) -> Result<(), Fail> {
    let plan = minutes(&FILE)?;
    let lefts = plan.lefts;
    let rights = plan.rights;
    assert_eq!(rt; lefts, plan.lefts);
    assert_ne!(rt; lefts, rights);
    let text = format!(in rt.alloc(); "{rights:?}")?;
    assert_eq!(rt;
        text.as_str(),
        "Windows { list: [Window { floor: 0, ceiling: 100 }] }"
    );
    Ok(())
}

#[test]
fn windows_of_zeros(rt: HostRuntime) -> Result<(), Fail> {
    let mut file = FILE;
    for at in [53, 62, 71] {
        file[at] = 0;
    }
    let plan = minutes(&file)?;
    assert_ne!(rt; plan.lefts, plan.rights);
    assert_eq!(rt; plan.rights, minutes(&with_number(68, 0))?.rights);
    Ok(())
}

#[test]
fn limits_of_minutes(rt: HostRuntime) -> Result<(), Fail> {
    assert_eq!(rt;
        minutes(&with_number(9, 1_000_000))?.left.cell(0, 0),
        Some(1_000_000)
    );
    assert_eq!(rt;
        minutes(&with_number(41, -1_000_000))?.right.cell(1, 0),
        Some(-1_000_000)
    );
    assert_eq!(rt;
        minutes(&with_number(46, -1_000_000))?
            .lefts
            .as_slice()
            .get(0)
            .copied(),
        Some(window(-1_000_000, 100))
    );
    assert_eq!(rt;
        minutes(&with_number(68, 1_000_000))?
            .rights
            .as_slice()
            .get(0)
            .copied(),
        Some(window(0, 1_000_000))
    );
    assert_eq!(rt;
        minutes(&with_number(59, 0))?
            .lefts
            .as_slice()
            .get(1)
            .copied(),
        Some(window(0, 0))
    );
    Ok(())
}

#[test]
fn limits_that_are_not_written(rt: HostRuntime) -> Result<(), Fail> {
    // one station and one bench a side, no coefficient; the left window has no limit, the right one a floor
    let file = [
        1, 1, 1, 1, 1, 0, 0, 0, 0, 0, 0, 0, 0, 0, 1, 255, 255, 255, 251,
    ];
    let plan = minutes(&file)?;
    assert_eq!(rt; plan.left.cell(0, 0), None);
    assert_eq!(rt;
        plan.lefts.as_slice().get(0).copied(),
        Some(window(-1_000_000, 1_000_000))
    );
    assert_eq!(rt;
        plan.rights.as_slice().get(0).copied(),
        Some(window(-5, 1_000_000))
    );
    // a ceiling alone
    let mut upper = file;
    upper[14] = 2;
    assert_eq!(rt;
        minutes(&upper)?.rights.as_slice().get(0).copied(),
        Some(window(-1_000_000, -5))
    );
    Ok(())
}

#[test]
fn grades_with_a_coefficient_of_0(rt: HostRuntime) -> Result<(), Fail> {
    let file = [
        1, 2, 1, 1, 1, 0, 0, 0, 1, 0, 0, 0, 0, 0, 0, 0, 1, 0, 0, 0, 15, 0, 0,
    ];
    let plan = grades(&file)?;
    assert_eq!(rt; plan.left.cell(0, 0), None);
    assert_eq!(rt; plan.right.cell(0, 0), Some(15));
    assert_eq!(rt; plan.lefts.as_slice().get(0).copied(), Some(window(0, 15)));
    Ok(())
}
