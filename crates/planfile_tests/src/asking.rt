use crate::worked::{FILE, told, with_number};
use planfile::Reader;

// The part, the line, the byte, the map and the fields of the next row, none after the last one, or what it is refused with.
fn asked<'a>(
    reader: &mut Reader<'a>,
) -> Result<Option<(u8, usize, usize, u32, &'a [u8])>, (u8, u8, usize, usize)> {
    let row = reader.ask().map_err(told)?;
    Ok(row.map(|row| {
        (
            row.place.part.number(),
            row.place.line,
            row.byte,
            row.map,
            row.fields,
        )
    }))
}

#[test]
fn rows_in_order(rt: HostRuntime) {
    let mut reader = Reader::new(&FILE);
    assert_eq!(rt; asked(&mut reader), Ok(None));
    assert!(rt; reader.accept_head().is_ok());
    assert_eq!(rt;
        asked(&mut reader),
        Ok(Some((1, 0, 5, 3, &[0, 0, 0, 3, 0, 0, 0, 0][..])))
    );
    assert_eq!(rt;
        asked(&mut reader),
        Ok(Some((1, 1, 17, 3, &[0, 0, 0, 1, 0, 0, 0, 2][..])))
    );
    assert_eq!(rt;
        asked(&mut reader),
        Ok(Some((2, 0, 29, 1, &[0, 0, 0, 0][..])))
    );
    assert_eq!(rt;
        asked(&mut reader),
        Ok(Some((2, 1, 37, 1, &[0, 0, 0, 0][..])))
    );
    assert_eq!(rt; asked(&mut reader), Ok(None));
    assert_eq!(rt; asked(&mut reader), Ok(None));
}

#[test]
fn a_refusal_leaves_the_reader(rt: HostRuntime) {
    let mut reader = Reader::new(&FILE[0..32]);
    assert!(rt; reader.accept_head().is_ok());
    assert_eq!(rt;
        asked(&mut reader),
        Ok(Some((1, 0, 5, 3, &[0, 0, 0, 3, 0, 0, 0, 0][..])))
    );
    assert_eq!(rt;
        asked(&mut reader),
        Ok(Some((1, 1, 17, 3, &[0, 0, 0, 1, 0, 0, 0, 2][..])))
    );
    assert_eq!(rt; asked(&mut reader), Err((1, 2, 0, 29)));
    assert_eq!(rt; asked(&mut reader), Err((1, 2, 0, 29)));
    let mut short = Reader::new(&[1, 3]);
    assert_eq!(rt; short.accept_head().err().map(told), Some((3, 0, 0, 1)));
    assert_eq!(rt; asked(&mut short), Ok(None));
}

#[test]
fn no_coefficient_is_looked_at(rt: HostRuntime) {
    // the first coefficient is out of its range and the second is missing: asking finds what is missing
    let file = with_number(9, 1_000_001);
    let mut reader = Reader::new(&file[0..16]);
    assert!(rt; reader.accept_head().is_ok());
    assert_eq!(rt; asked(&mut reader), Err((1, 1, 0, 13)));
    let mut whole = Reader::new(&file);
    assert!(rt; whole.accept_head().is_ok());
    assert_eq!(rt;
        asked(&mut whole),
        Ok(Some((1, 0, 5, 3, &[0, 15, 66, 65, 0, 0, 0, 0][..])))
    );
    let bits = with_number(5, 4);
    let mut wrong = Reader::new(&bits);
    assert!(rt; wrong.accept_head().is_ok());
    assert_eq!(rt; asked(&mut wrong), Err((5, 1, 0, 5)));
}
