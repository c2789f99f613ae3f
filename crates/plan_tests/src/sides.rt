use crate::halls::{first_halls, window};
use benches::{Benches, cut_by};
use network::Refusal;
use std::test::Fail;

fn two_starts(benches: &Benches) -> Result<[i32; 2], Refusal> {
    let mut starts = [0; 2];
    benches.starts(&mut starts)?;
    Ok(starts)
}

#[test]
fn cut_on_lent_networks(rt: HostRuntime) -> Result<(), Fail> {
    let (left, right) = first_halls()?;
    let one = Benches::fresh(&[window(0, 100)]);
    let mut two = Benches::fresh(&[window(0, 100), window(0, 100)]);
    let copy = two;
    assert!(rt; !cut_by(&right, &one, &left, &mut two));
    assert_eq!(rt; two_starts(&two), Ok([97, 98]));
    assert!(rt; cut_by(&right, &one, &left, &mut two));
    // two records lead a network of one bench
    assert!(rt; !cut_by(&right, &copy, &left, &mut two));
    assert_eq!(rt; two_starts(&two), Ok([97, 98]));
    assert_eq!(rt; two_starts(&copy), Ok([100, 100]));
    Ok(())
}

#[test]
fn printed_records(rt: HostRuntime) -> Result<(), Fail> {
    let benches = Benches::fresh(&[window(0, 5)]);
    let text = format!(in rt.alloc(); "{benches:?}")?;
    assert_eq!(rt;
        text.as_str(),
        "Benches { rows: [Bench { floor: 0, ceiling: 5, start: 5 }] }"
    );
    let text = format!(in rt.alloc(); "{:?}", Benches::fresh(&[]))?;
    assert_eq!(rt; text.as_str(), "Benches { rows: [] }");
    Ok(())
}
