// Rows that are filled up to their last place, and emptied.
use crate::few::{Few, Full};
use crate::short::Short;
use std::test::Fail;

#[test]
fn fills_a_row(rt: HostRuntime) -> Result<(), Fail> {
    let mut row: Few<u8, 2> = Few::new(rt.alloc())?;
    assert_eq!(rt; row.len(), 0);
    assert_eq!(rt; row.push(7), Ok(()));
    assert_eq!(rt; row.push(8), Ok(()));
    assert_eq!(rt; row.push(9), Err(Full));
    assert_eq!(rt; row.as_slice(), [7, 8].as_slice());
    row.truncate(1);
    assert_eq!(rt; row.as_slice(), [7].as_slice());
    row.clear();
    assert_eq!(rt; row.len(), 0);
    Ok(())
}

#[test]
fn fills_a_row_of_bytes(rt: HostRuntime) {
    let mut row: Short<2> = Short::new();
    assert_eq!(rt; row.push(b'a'), Ok(()));
    let first = row;
    assert_eq!(rt; row.push(b'b'), Ok(()));
    assert_eq!(rt; row.push(b'c'), Err(Full));
    assert_eq!(rt; row.as_slice(), b"ab".as_slice());
    assert_eq!(rt; first.as_slice(), b"a".as_slice());
    let whole: Option<Short<2>> = Short::from_slice(b"ab");
    assert!(rt; whole.is_some_and(|s| s.as_slice() == b"ab".as_slice()));
    let long: Option<Short<2>> = Short::from_slice(b"abc");
    assert!(rt; long.is_none());
}
