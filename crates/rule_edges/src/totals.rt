// The limits of all productions together: tests, constants of choices and settings.
use crate::expect::*;
use crate::marks::*;
use rules::size::Size;
use std::test::Fail;
use texts::*;

// In the first condition, behind 512 tests.
const TESTS_TAKEN: [&[u8]; 2] = [
    b") --> )",
    b") --> (make c ^x 1 ^y 2) (modify 1 ^x 3) (remove 1) (halt))",
];

const TESTS_REFUSED: [Refused; 35] = [
    (b" ^x @1) --> )", 6),
    (b" ^x @red) --> )", 6),
    (b" ^x @c) --> )", 6),
    (b" ^x @<v>) --> )", 6),
    (b" ^x @= 1) --> )", 6),
    (b" ^x @<> 1) --> )", 6),
    (b" ^x @< 1) --> )", 6),
    (b" ^x @<= 1) --> )", 6),
    (b" ^x @> 1) --> )", 6),
    (b" ^x @>= 1) --> )", 6),
    (b" ^x @<=> 1) --> )", 6),
    (b" ^x @<< 1 >>) --> )", 6),
    (b" ^x @> <v>) --> )", 6),
    (b" ^x @> red) --> )", 6),
    (b" ^x @<< >>) --> )", 6),
    (b" ^x @abcdefghijklmnopqrstuvwxy) --> )", 6),
    (b") (@c) --> )", 6),
    (b") - (@c) --> )", 6),
    (b") --> )(p b (@c) --> )", 6),
    // Undeclared, too: the lower number.
    (b") (@f) --> )", 3),
    (b") - (@f) --> )", 3),
    (b") (@x) --> )", 3),
    (b") (@abcdefghijklmnopqrstuvwxy) --> )", 3),
    (b") --> )(p b (@f) --> )", 3),
    (b") --> )(p @a (c) --> )", 3),
    (b" ^@z 1) --> )", 3),
    (b") (@7) --> )", 2),
    (b") - (@(c)) --> )", 2),
    (b" ^x @) --> )", 2),
    (b" ^x @- 1) --> )", 2),
    (b" ^x @>> --> )", 2),
    (b" ^x@", 2),
    (b") --> )(p b @-(c) --> )", 2),
    (b") (@c.) --> )", 1),
    (b" ^x @7.5) --> )", 1),
];

// In the first condition, behind 511 tests.
const LAST_TEST_TAKEN: [&[u8]; 8] = [
    b" ^x red) --> )",
    b" ^x <v>) --> (make c ^x <v>))",
    b" ^x <> 4) --> )",
    b" ^x = <v>) --> )",
    b" ^x << 1 2 3 red >>) --> )",
    b") (c) --> )",
    b") - (c) --> )",
    b" ^y 1) --> )",
];

const LAST_TEST_REFUSED: [Refused; 9] = [
    (b" ^x red ^x @1) --> )", 6),
    (b" ^x <v> ^x @<v>) --> )", 6),
    (b" ^x <> 4 ^x @<> 4) --> )", 6),
    (b" ^x << 1 2 3 >> ^x @<< 1 >>) --> )", 6),
    (b") (c ^x @1) --> )", 6),
    (b") (c) (@c) --> )", 6),
    (b") - (c) - (@c) --> )", 6),
    (b") --> )(p b (c ^x @1) --> )", 6),
    (b") --> )(p b (c) - (@c) --> )", 6),
];

// Behind a condition, a negated one that meets `<v>`, and one more up to 512 tests.
const MET_REFUSED: [Refused; 3] = [
    (b" ^x @<v>) --> )", 4),
    (b" ^x @<w>) --> )", 6),
    (b" ^x @= <v>) --> )", 6),
];

// In a choice, behind 256 constants.
const CONSTANTS_TAKEN: [&[u8]; 2] = [
    b" >>) --> )",
    b" >> ^x 1 ^y <> red ^x = 2) - (c ^x red) --> (make c ^x 1))",
];

const CONSTANTS_REFUSED: [Refused; 28] = [
    (b" @1 >>) --> )", 6),
    (b" @red >>) --> )", 6),
    (b" @c >>) --> )", 6),
    (b" @<v> >>) --> )", 6),
    (b" @- >>) --> )", 6),
    (b" @--> >>) --> )", 6),
    (b" @<< >>) --> )", 6),
    (b" @= >>) --> )", 6),
    (b" @<=> >>) --> )", 6),
    (b" @abcdefghijklmnopqrstuvwxy >>) --> )", 6),
    (b" >> ^x << @1 >>) --> )", 6),
    (b" >>) (c ^x << @red >>) --> )", 6),
    (b" >>) - (c ^x << @red >>) --> )", 6),
    (b" >>) --> )(p b (c ^x << @1 >>) --> )", 6),
    (b" >>) --> )(p b (c ^x 1 ^y << @- >>) --> )", 6),
    (b" @( >>) --> )", 2),
    (b" @) --> )", 2),
    (b" @^ >>) --> )", 2),
    (b"@", 2),
    (b" >> @>>) --> )", 2),
    (b" >> ^x << @>>) --> )", 2),
    (b" >> ^x << @(1) >>) --> )", 2),
    (b" @. >>) --> )", 1),
    (b" @2147483648 >>) --> )", 1),
    (b" @<v.> >>) --> )", 1),
    (b" @\x07 >>) --> )", 1),
    (b" >> ^x << @1, >>) --> )", 1),
    (b" >>) --> )(p @a (c) --> )", 3),
];

// In an action, behind 256 settings. The condition meets `<v>`.
const SETTINGS_TAKEN: [&[u8]; 2] = [b"))", b") (make c) (modify 1) (remove 1) (halt))"];

const SETTINGS_REFUSED: [Refused; 26] = [
    (b" ^x @1))", 6),
    (b" ^x @red))", 6),
    (b" ^x @nil))", 6),
    (b" ^x @<v>))", 6),
    (b" ^y @-5))", 6),
    (b" ^x @abcdefghijklmnopqrstuvwxy))", 6),
    (b") (make c ^x @1))", 6),
    (b") (make d ^z @red))", 6),
    (b") (modify 1 ^x @<v>))", 6),
    (b"))(p b (c) --> (make c ^x @1))", 6),
    (b"))(p b (c ^x <w>) --> (modify 1 ^x @<w>))", 6),
    // No unnegated condition has the variable: the lower number.
    (b" ^x @<w>))", 4),
    (b" ^x @<abcdefghijklmnopqrstuvw>))", 4),
    (b") (modify 1 ^y @<w>))", 4),
    (b"))(p b (c) --> (make c ^x @<v>))", 4),
    (b") (modify @2 ^x 1))", 5),
    (b" ^@z 1))", 3),
    (b") (make @f ^x 1))", 3),
    (b" ^x@))", 2),
    (b" ^x @- 1))", 2),
    (b" ^x @= 1))", 2),
    (b" ^x @<< 1 >>))", 2),
    (b" @1))", 2),
    (b" ^x@", 2),
    (b" ^x @1.5))", 1),
    (b" ^x @<v.>))", 1),
];

#[test]
fn tests_of_a_base(rt: HostRuntime) -> Result<(), Fail> {
    let heap = rt.alloc();
    let begin = joined(heap, CLASSES, b"(p a (c")?;
    let most = b" ^x 1".repeat(heap, 510)?;
    let before_last = joined(heap, &begin, &most)?;
    expect_each_taken(&rt, &before_last, &LAST_TEST_TAKEN, 1)?;
    expect_each_taken(&rt, &before_last, &[b") --> )(p b (c) --> )"], 2)?;
    expect_each_refused(&rt, &before_last, &LAST_TEST_REFUSED)?;
    let full = joined(heap, &before_last, b" ^y << red 1 >>")?;
    expect_each_taken(&rt, &full, &TESTS_TAKEN, 1)?;
    expect_each_refused(&rt, &full, &TESTS_REFUSED)?;
    // 1 and 2 and 1 of the three conditions, and 508.
    let met = joined(heap, CLASSES, b"(p a (c) - (c ^x <v>) (c")?;
    let rest = b" ^x 1".repeat(heap, 508)?;
    let full = joined(heap, &met, &rest)?;
    expect_each_taken(&rt, &full, &[b") --> )"], 1)?;
    expect_each_refused(&rt, &full, &MET_REFUSED)
}

#[test]
fn constants_of_a_base(rt: HostRuntime) -> Result<(), Fail> {
    let heap = rt.alloc();
    let begin = joined(heap, CLASSES, b"(p a (c ^x <<")?;
    let constants = b" 1".repeat(heap, 256)?;
    let one = joined(heap, &begin, &constants)?;
    expect_each_taken(&rt, &one, &CONSTANTS_TAKEN, 1)?;
    expect_each_refused(&rt, &one, &CONSTANTS_REFUSED)?;
    // In two choices: 100 times `red`, and 156 different numbers.
    let red = b" red".repeat(heap, 100)?;
    let first = joined(heap, &begin, &red)?;
    let second = joined(heap, &first, b" >> ^y <<")?;
    let different = numbered(heap, b" _", 0..156)?;
    let two = joined(heap, &second, &different)?;
    expect_each_taken(&rt, &two, &CONSTANTS_TAKEN, 1)?;
    expect_each_refused(&rt, &two, &CONSTANTS_REFUSED)
}

#[test]
fn settings_of_a_base(rt: HostRuntime) -> Result<(), Fail> {
    let heap = rt.alloc();
    let settings = b" ^x 1".repeat(heap, 255)?;
    let make = joined(heap, CLASSES, b"(p a (c ^y <v>) --> (make c ^y <v>")?;
    let made = joined(heap, &make, &settings)?;
    expect_each_taken(&rt, &made, &SETTINGS_TAKEN, 1)?;
    expect_each_refused(&rt, &made, &SETTINGS_REFUSED)?;
    // Two of an earlier action, and 254.
    let two = joined(
        heap,
        CLASSES,
        b"(p a (c ^y <v>) --> (make c ^x 1 ^y 2) (modify 1",
    )?;
    let rest = b" ^x red".repeat(heap, 254)?;
    let modified = joined(heap, &two, &rest)?;
    expect_each_taken(&rt, &modified, &SETTINGS_TAKEN, 1)?;
    expect_each_refused(&rt, &modified, &SETTINGS_REFUSED)
}

// A production with eight tests, four constants and four settings, of which there may be 64.
const EIGHTH: &[u8] =
    b"(p r_ (c ^x 1 ^y = 2 ^x << 3 4 >> ^y << red 5 >>) (d ^z <v>) - (e) --> (make c ^x 1 ^y <v>) (modify 2 ^z 3 ^z red))";

// Behind 63 of them.
const LAST_TAKEN: [&[u8]; 4] = [
    b"(p a (c ^x 1 ^x 1 ^x 1 ^x 1 ^x 1 ^x 1 ^x 1) --> )",
    b"(p a (c) (c) (c) (c) (c) (c) - (c) - (c) --> )",
    b"(p a (c ^x << 1 2 3 4 >>) --> (make c ^x 1 ^x 1 ^x 1 ^x 1))",
    b"(p a (c) --> (make c ^x 1) (make c ^x 1) (modify 1 ^x 1 ^x 1))",
];

const LAST_REFUSED: [Refused; 5] = [
    (
        b"(p a (c ^x 1 ^x 1 ^x 1 ^x 1 ^x 1 ^x 1 ^x 1 ^x @1) --> )",
        6,
    ),
    (b"(p a (c) (c) (c) (c) (c) (c) - (c) - (c ^x @> 1) --> )", 6),
    (b"(p a (c ^x << 1 2 3 4 @5 >>) --> )", 6),
    (
        b"(p a (c ^x << 1 2 >>) - (c ^x << 3 4 >> ^y << @5 >>) --> )",
        6,
    ),
    (
        b"(p a (c) --> (make c ^x 1) (make c ^x 1) (modify 1 ^x 1 ^x 1 ^y @1))",
        6,
    ),
];

#[test]
fn productions_together(rt: HostRuntime) -> Result<(), Fail> {
    let heap = rt.alloc();
    let rules = numbered(heap, EIGHTH, 0..64)?;
    let whole = joined(heap, CLASSES, &rules)?;
    let reading = taken(&rt, &whole)?;
    assert_eq!(rt;
        reading.base.size(),
        Size {
            tests: 512,
            constants: 256,
            settings: 256,
        }
    );
    assert_eq!(rt; reading.base.count(), 64);
    let fewer = numbered(heap, EIGHTH, 0..63)?;
    let before = joined(heap, CLASSES, &fewer)?;
    expect_each_taken(&rt, &before, &LAST_TAKEN, 64)?;
    expect_each_refused(&rt, &before, &LAST_REFUSED)
}
