use network::{Carriage, Network, Refusal, Series, Straight, reaches_in_time};
use scale::{Grades, Minutes, Scale};
use std::test::Fail;

fn straight(size: usize) -> Result<Straight<Grades>, Refusal> {
    Straight::new(size)
}

fn carriage(
    size: usize,
    coefficients: &[Option<i32>],
) -> Result<Carriage<Straight<Grades>>, Refusal> {
    Carriage::new(straight(size)?, coefficients).map_err(|e| e.refusal)
}

#[test]
fn straight_sizes(rt: HostRuntime) {
    for (size, number) in [
        (0, Some(4)),
        (1, None),
        (32, None),
        (33, Some(4)),
        (usize::MAX, Some(4)),
    ] {
        let refusal = Straight::<Minutes>::new(size).err();
        assert_eq!(rt; refusal.map(|e| e.number()), number);
    }
}

#[test]
fn straight_hands_through(rt: HostRuntime) -> Result<(), Fail> {
    let n = straight(3)?;
    let mut out = [0; 3];
    assert_eq!(rt; n.arrivals(&[-5, 7, 16], &mut out), Ok(()));
    assert_eq!(rt; out, [0, 7, 15]);
    assert_eq!(rt; n.latest(&[15, i32::MAX, i32::MIN], &mut out), Ok(()));
    assert_eq!(rt; out, [15, 15, 0]);
    assert_eq!(rt; n.latest(&[1, 2], &mut out), Err(Refusal::Lengths));
    assert_eq!(rt; out, [15, 15, 0]);
    let mut short = [9; 2];
    assert_eq!(rt; n.arrivals(&[1, 2, 3], &mut short), Err(Refusal::Lengths));
    assert_eq!(rt; short, [9, 9]);
    Ok(())
}

#[test]
fn range(rt: HostRuntime) -> Result<(), Fail> {
    let n = straight(1)?;
    assert_eq!(rt; n.lowest(), 0);
    assert_eq!(rt; n.highest(), 15);
    Ok(())
}

#[test]
fn carriage_refusals(rt: HostRuntime) -> Result<(), Fail> {
    let Err(few) = Carriage::new(straight(2)?, &[None]) else {
        return Err(Fail::new("taken"));
    };
    assert_eq!(rt; (few.refusal.number(), few.station), (12, None));
    let Err(absent) = Carriage::new(few.below, &[Some(4), None]) else {
        return Err(Fail::new("taken"));
    };
    assert_eq!(rt; (absent.refusal.number(), absent.station), (6, Some(1)));
    let Err(beyond) = Carriage::new(absent.below, &[Some(16), Some(0)]) else {
        return Err(Fail::new("taken"));
    };
    assert_eq!(rt; (beyond.refusal.number(), beyond.station), (6, Some(0)));
    let Err(zero) = Carriage::new(beyond.below, &[Some(15), Some(0)]) else {
        return Err(Fail::new("taken"));
    };
    assert_eq!(rt; zero.station, Some(1));
    Ok(())
}

#[test]
fn carriage_multiplies(rt: HostRuntime) -> Result<(), Fail> {
    let n = carriage(2, &[Some(9), Some(4)])?;
    let mut out = [0; 2];
    assert_eq!(rt; n.arrivals(&[12, 3], &mut out), Ok(()));
    assert_eq!(rt; out, [9, 3]);
    assert_eq!(rt; n.latest(&[8, 4], &mut out), Ok(()));
    assert_eq!(rt; out, [8, 15]);
    assert_eq!(rt; n.latest(&[8], &mut out), Err(Refusal::Lengths));
    assert_eq!(rt; out, [8, 15]);
    Ok(())
}

#[test]
fn series_refusal(rt: HostRuntime) -> Result<(), Fail> {
    let Err(back) = Series::new(straight(2)?, straight(3)?) else {
        return Err(Fail::new("taken"));
    };
    assert_eq!(rt; back.refusal.number(), 12);
    assert_eq!(rt; back.first.benches(), 2);
    assert_eq!(rt; back.second.benches(), 3);
    Ok(())
}

#[test]
fn series_order(rt: HostRuntime) -> Result<(), Fail> {
    let first = carriage(1, &[Some(9)])?;
    let second = carriage(1, &[Some(4)])?;
    let n = Series::new(first, second).map_err(|e| e.refusal)?;
    let mut out = [0];
    assert_eq!(rt; n.latest(&[6], &mut out), Ok(()));
    assert_eq!(rt; out, [15]);
    assert_eq!(rt; n.latest(&[3], &mut out), Ok(()));
    assert_eq!(rt; out, [3]);
    assert_eq!(rt; n.arrivals(&[12], &mut out), Ok(()));
    assert_eq!(rt; out, [4]);
    Ok(())
}

#[test]
fn limits_kept(rt: HostRuntime) -> Result<(), Fail> {
    let n = straight(2)?;
    assert_eq!(rt; reaches_in_time(&n, &[3, 4], &[3, 4]), Ok(true));
    assert_eq!(rt; reaches_in_time(&n, &[3, 5], &[3, 4]), Ok(false));
    assert_eq!(rt; reaches_in_time(&n, &[3], &[3, 4]), Err(Refusal::Lengths));
    assert_eq!(rt; reaches_in_time(&n, &[3, 4], &[3]), Err(Refusal::Lengths));
    Ok(())
}
