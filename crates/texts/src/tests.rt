// Each call succeeds, and gives what is expected.
use super::*;
use std::test::Fail;

#[test]
fn built(rt: HostRuntime) -> Result<(), Fail> {
    let heap = rt.alloc();
    let whole = joined(heap, b"(wm)", b" ;")?;
    assert_eq!(rt; whole.as_slice(), b"(wm) ;".as_slice());
    let twice = filled(heap, b"(_ ^_ 1)", b"ab")?;
    assert_eq!(rt; twice.as_slice(), b"(ab ^ab 1)".as_slice());
    let three = numbered(heap, b"c_ ", 9..12)?;
    assert_eq!(rt; three.as_slice(), b"c9 c10 c11 ".as_slice());
    let long = stretched(heap, b"(", b' ', b")", 5)?;
    assert_eq!(rt; long.as_slice(), b"(   )".as_slice());
    let short = stretched(heap, b"(wm", b' ', b")", 2)?;
    assert_eq!(rt; short.as_slice(), b"(wm)".as_slice());
    Ok(())
}
