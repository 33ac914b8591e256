// Numbers, and words that are nearly numbers.
use crate::expect::*;
use std::test::Fail;

// Each word as a value, and how it prints.
const NUMBERS: [Case; 22] = [
    (b"0", b"0"),
    (b"-0", b"0"),
    (b"+0", b"0"),
    (b"-0.", b"0"),
    (b"000", b"0"),
    (b"7", b"7"),
    (b"+7", b"7"),
    (b"7.", b"7"),
    (b"007", b"7"),
    (b"+007.", b"7"),
    (b"-7", b"-7"),
    (b"-007.", b"-7"),
    (b"1000", b"1000"),
    (b"2147483647", b"2147483647"),
    (b"+2147483647", b"2147483647"),
    (b"2147483647.", b"2147483647"),
    (b"-2147483647", b"-2147483647"),
    (b"-2147483648", b"-2147483648"),
    (b"-2147483648.", b"-2147483648"),
    (b"0000000000000000000000000000000001234567", b"1234567"),
    (b"-0000000000000000000000000000002147483648", b"-2147483648"),
    (b"+0000000000000000000000000000000000000000", b"0"),
];

// Symbols that have something of a number.
const SYMBOLS: [&[u8]; 14] = [
    b"+", b"++", b"--", b"--5", b"+-7", b"-+7", b"7+", b"7-", b"1-2", b"1e5", b"0x7", b"7a", b"-a",
    b"1/2:3",
];

const ILLEGAL: [&[u8]; 37] = [
    // Out of range, also where the value would be in range modulo a power of 2.
    b"2147483648",
    b"+2147483648",
    b"2147483648.",
    b"-2147483649",
    b"-2147483649.",
    b"4294967295",
    b"4294967296",
    b"4294967303",
    b"-4294967296",
    b"9223372036854775808",
    b"18446744073709551616",
    b"18446744073709551623",
    b"-18446744073709551615",
    b"9999999999999999999999999999999999999999",
    b"-1000000000000000000000000000000000000000",
    b"0000000000000000000000000000002147483648",
    // With a comma or a period.
    b".",
    b"..",
    b"-.",
    b"+.",
    b"7..",
    b"7.7",
    b".7",
    b"-.7",
    b"1.5",
    b"7.-",
    b"a.",
    b".a",
    b"a.b",
    b",",
    b"7,",
    b"1,500",
    b"a,b",
    b"--5.",
    b"<x.y>",
    b"<,>",
    b"-->.",
];

#[test]
fn values(rt: HostRuntime) -> Result<(), Fail> {
    for (word, shown) in &NUMBERS {
        expect_value(&rt, word, shown)?;
    }
    expect_symbols(&rt, &SYMBOLS)?;
    expect_each_refused(&rt, b"(literalize a x)(make a ^x _)(wm)", &ILLEGAL, 1)
}
