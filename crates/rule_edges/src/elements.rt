// The numbers by which modify and remove name a condition.
use crate::expect::*;
use crate::marks::*;
use std::test::Fail;

// Each form with a number in place of `_`.
const FORMS: [&[u8]; 4] = [
    b"(p a (c) --> (remove @_))",
    b"(p a (c) --> (modify @_ ^x 1))",
    b"(p a (c) - (c) - (c) --> (halt) (remove @_) (halt))",
    b"(p a (c) - (c) - (c) --> (make c) (modify @_))",
];

const ONE: [&[u8]; 6] = [
    b"1",
    b"+1",
    b"1.",
    b"001",
    b"+001.",
    b"0000000000000000000000000000001",
];

const NONE: [&[u8]; 16] = [
    b"0",
    b"-0",
    b"+0.",
    b"000",
    b"2",
    b"3",
    b"-1",
    b"-2",
    b"7",
    b"8",
    b"257",
    b"65537",
    b"16777217",
    b"2147483647",
    b"-2147483648",
    b"-2147483647",
];

const NO_NUMBER: [&[u8]; 10] = [
    b"c", b"*", b"one", b"1-", b"--1", b"<v>", b"-", b"<<", b"^", b"(",
];

const ILLEGAL: [&[u8]; 6] = [
    b"2147483648",
    b"4294967297",
    b"-2147483649",
    b"1.0",
    b"1,",
    b".1",
];

// Only the unnegated conditions are counted.
const REFUSED: [Refused; 8] = [
    (b"(p a (c) - (c) (c) --> (remove @3))", 5),
    (b"(p a (c) - (c) (c) --> (modify @3 ^x 1))", 5),
    (b"(p a (c) (c) - (c) --> (remove 2) (remove @3))", 5),
    (
        b"(p a (c) - (c) - (c) - (c) - (c) - (c) - (c) - (c) --> (remove @2))",
        5,
    ),
    (b"(p a (c) (c) (c) (c) (c) (c) --> (remove @7))", 5),
    (
        b"(p a (c) (c) (c) (c) (c) (c) - (c) - (c) --> (modify @7))",
        5,
    ),
    (
        b"(p a (c) (c) (c) (c) (c) (c) - (c) - (c) --> (modify @8))",
        5,
    ),
    // The number breaks before the attribute.
    (b"(p a (c) --> (modify @2 ^z 1))", 5),
];

const TAKEN: [&[u8]; 4] = [
    b"(p a (c) - (c) (c) --> (remove 2) (modify 1) (modify 2 ^x 1))",
    b"(p a (c) (c) (c) - (c) - (c) (c) (c) (c) --> (remove 1) (remove 2) (remove 3) (remove 4) (remove 5) (remove 6))",
    b"(p a (c) (c) (c) (c) (c) (c) --> (modify 6 ^x 1) (modify 1))",
    // The same element may be named again.
    b"(p a (c) --> (remove 1) (modify 1 ^x 1) (remove 1))",
];

#[test]
fn named_conditions(rt: HostRuntime) -> Result<(), Fail> {
    expect_each_refused(&rt, CLASSES, &REFUSED)?;
    expect_each_taken(&rt, CLASSES, &TAKEN, 1)?;
    for form in &FORMS {
        expect_words_taken(&rt, form, &ONE)?;
        expect_words_refused(&rt, form, &NONE, 5)?;
        expect_words_refused(&rt, form, &NO_NUMBER, 2)?;
        expect_words_refused(&rt, form, &ILLEGAL, 1)?;
    }
    Ok(())
}
