// The limits of one production: conditions, variables and actions; and how many productions there may be.
use crate::expect::*;
use crate::marks::*;
use std::test::Fail;
use texts::*;

const CONDITIONS_TAKEN: [&[u8]; 6] = [
    b"(p a (c)(c)(c)(c)(c)(c) --> )",
    b"(p a (c)(c)(c)(c)(c)(c)-(c)-(c) --> )",
    b"(p a (c)-(c)(c)-(c)(c)(c)(c)(c) --> )",
    b"(p a (c)-(c)-(c)(c)(c)(c)(c)(c) --> )",
    b"(p a (c)-(c)-(c)-(c)-(c)-(c)-(c)-(c) --> )",
    b"(p a (c)(c)(c)(c)(c)-(c)-(c)-(c) --> )",
];

const CONDITIONS_REFUSED: [Refused; 19] = [
    // A seventh unnegated condition.
    (b"(p a (c)(c)(c)(c)(c)(c) @(c) --> )", 6),
    (b"(p a (c)(c)(c)(c)(c)(c)-(c) @(c) --> )", 6),
    (b"(p a (c)-(c)(c)(c)(c)(c)(c) @(c) --> )", 6),
    (b"(p a (c)(c)(c)(c)(c)(c) @(", 6),
    (b"(p a (c)(c)(c)(c)(c)(c) @(f) --> )", 6),
    // A ninth condition.
    (b"(p a (c)(c)(c)(c)(c)(c)-(c)-(c) @(c) --> )", 6),
    (b"(p a (c)(c)(c)(c)(c)(c)-(c)-(c) @-(c) --> )", 6),
    (b"(p a (c)(c)(c)(c)(c)-(c)-(c)-(c) @(c) --> )", 6),
    (b"(p a (c)(c)(c)(c)(c)-(c)-(c)-(c) @-(c) --> )", 6),
    (b"(p a (c)-(c)-(c)-(c)-(c)-(c)-(c)-(c) @(c) --> )", 6),
    (b"(p a (c)-(c)-(c)-(c)-(c)-(c)-(c)-(c) @-(c) --> )", 6),
    (b"(p a (c)-(c)-(c)-(c)-(c)-(c)-(c)-(c) @-", 6),
    // Other words there are refused as ever.
    (b"(p a (c)(c)(c)(c)(c)(c)-(c)-(c) @) --> )", 2),
    (b"(p a (c)(c)(c)(c)(c)(c)-(c)-(c) @c --> )", 2),
    (b"(p a (c)(c)(c)(c)(c)(c)-(c)-(c) @^ --> )", 2),
    (b"(p a (c)(c)(c)(c)(c)(c)-(c)-(c)@", 2),
    (b"(p a (c)(c)(c)(c)(c)(c)-(c)-(c) @-->. )", 1),
    (b"(p a (c)(c)(c)(c)(c)(c)-(c)-(c) @\x00(c) --> )", 1),
    (b"(p a (c)(c)(c)(c)(c)(c) @-. (c) --> )", 1),
];

const ACTIONS_TAKEN: [&[u8]; 5] = [
    b"(p a (c) --> (halt)(halt)(halt)(halt)(halt)(halt)(halt)(halt))",
    b"(p a (c) --> (make c)(make c)(make c)(make c)(make c)(make c)(make c)(make c))",
    b"(p a (c) --> (modify 1)(modify 1)(modify 1)(modify 1)(modify 1)(modify 1)(modify 1)(modify 1))",
    b"(p a (c) --> (remove 1)(remove 1)(remove 1)(remove 1)(remove 1)(remove 1)(remove 1)(remove 1))",
    b"(p a (c) --> (halt)(make c)(modify 1)(remove 1)(make e)(modify 1 ^x 1)(make c ^x 1)(halt))",
];

const ACTIONS_REFUSED: [Refused; 12] = [
    (
        b"(p a (c) --> (halt)(halt)(halt)(halt)(halt)(halt)(halt)(halt) @(halt))",
        6,
    ),
    (
        b"(p a (c) --> (halt)(halt)(halt)(halt)(halt)(halt)(halt)(halt) @(make c))",
        6,
    ),
    (
        b"(p a (c) --> (halt)(halt)(halt)(halt)(halt)(halt)(halt)(halt) @(remove 9))",
        6,
    ),
    (
        b"(p a (c) --> (halt)(halt)(halt)(halt)(halt)(halt)(halt)(halt) @(wm))",
        6,
    ),
    (
        b"(p a (c) --> (halt)(halt)(halt)(halt)(halt)(halt)(halt)(halt) @(",
        6,
    ),
    (
        b"(p a (c) --> (make c)(make c)(make c)(make c)(make c)(make c)(make c)(make c) @(make c))",
        6,
    ),
    (
        b"(p a (c) --> (modify 1)(modify 1)(modify 1)(modify 1)(modify 1)(modify 1)(modify 1)(modify 1) @(modify 1))",
        6,
    ),
    (
        b"(p a (c) --> (remove 1)(remove 1)(remove 1)(remove 1)(remove 1)(remove 1)(remove 1)(remove 1) @(remove 1))",
        6,
    ),
    (
        b"(p a (c) --> (halt)(halt)(halt)(halt)(halt)(halt)(halt)(halt) @halt)",
        2,
    ),
    (
        b"(p a (c) --> (halt)(halt)(halt)(halt)(halt)(halt)(halt)(halt) @--> )",
        2,
    ),
    (
        b"(p a (c) --> (halt)(halt)(halt)(halt)(halt)(halt)(halt)(halt)@",
        2,
    ),
    (
        b"(p a (c) --> (halt)(halt)(halt)(halt)(halt)(halt)(halt)(halt) @.)",
        1,
    ),
];

// In the first condition, behind sixteen variables.
const SIXTEEN_TAKEN: [&[u8]; 4] = [
    b") --> )",
    b" ^x <v3> ^x = <v9>) --> (make c ^x <v15> ^y <v0>))",
    b" ^y > <v15>) (c ^x <v0>) - (c ^x <> <v7>) --> (modify 1 ^x <v1>))",
    b" ^x << <w> >>) - (c ^x << <u> <v0> >>) --> )",
];

const SIXTEEN_REFUSED: [Refused; 22] = [
    (b" ^x @<w>) --> )", 6),
    (b" ^x = @<w>) --> )", 6),
    (b") (c ^x @<w>) --> )", 6),
    (b") (c ^x <v0> ^y = @<w>) --> )", 6),
    (b") - (c ^x @<w>) --> )", 6),
    (b") - (c ^x = @<w>) --> )", 6),
    (b" ^x << <w> >> ^y @<w>) --> )", 6),
    (b" ^x @<abcdefghijklmnopqrstuvw>) --> )", 6),
    // First met where it may not be: the lower number.
    (b" ^x <> @<w>) --> )", 4),
    (b" ^x < @<w>) --> )", 4),
    (b" ^x <= @<w>) --> )", 4),
    (b" ^x > @<w>) --> )", 4),
    (b" ^x >= @<w>) --> )", 4),
    (b" ^x <=> @<w>) --> )", 4),
    (b" ^x <> @<abcdefghijklmnopqrstuvw>) --> )", 4),
    (b") (c ^x <> @<w>) --> )", 4),
    (b") - (c ^x > @<w>) --> )", 4),
    (b") --> (make c ^x @<w>))", 4),
    (b") --> (modify 1 ^x @<w>))", 4),
    (b" @<w>) --> )", 2),
    (b" ^@<w> 1) --> )", 2),
    (b" ^x @<w.>) --> )", 1),
];

// Behind sixty-four productions.
const MORE_REFUSED: [Refused; 15] = [
    (b"(p @r64 (c) --> )", 6),
    (b"(p @r64", 6),
    (b"(p @c (c) --> )", 6),
    (b"(p @nil (c) --> )", 6),
    (b"(p @r (c) --> )", 6),
    (b"(p @abcdefghijklmnopqrstuvwxy (c) --> )", 6),
    // Named twice: the lower number.
    (b"(p @r0 (c) --> )", 3),
    (b"(p @r31 (c) --> )", 3),
    (b"(p @r63 (c) --> )", 3),
    (b"(p @7 (c) --> )", 2),
    (b"(p @<r0> (c) --> )", 2),
    (b"(p @(c) --> )", 2),
    (b"(p@", 2),
    (b"(p @r64. (c) --> )", 1),
    (b"(p @\xff (c) --> )", 1),
];

#[test]
fn conditions_and_actions(rt: HostRuntime) -> Result<(), Fail> {
    let heap = rt.alloc();
    expect_each_taken(&rt, CLASSES, &CONDITIONS_TAKEN, 1)?;
    expect_each_refused(&rt, CLASSES, &CONDITIONS_REFUSED)?;
    expect_each_taken(&rt, CLASSES, &ACTIONS_TAKEN, 1)?;
    expect_each_refused(&rt, CLASSES, &ACTIONS_REFUSED)?;
    // Each production counts its own.
    let full =
        b"(p r_ (c)(c)(c)(c)(c)(c)-(c)-(c) --> (halt)(halt)(halt)(halt)(halt)(halt)(halt)(halt))";
    let many = numbered(heap, full, 0..64)?;
    expect_each_taken(&rt, CLASSES, &[&many], 64)
}

#[test]
fn sixteen_variables(rt: HostRuntime) -> Result<(), Fail> {
    let heap = rt.alloc();
    let begin = joined(heap, CLASSES, b"(p a (c")?;
    let tests = numbered(heap, b" ^x <v_>", 0..16)?;
    let bare = joined(heap, &begin, &tests)?;
    expect_each_taken(&rt, &bare, &SIXTEEN_TAKEN, 1)?;
    expect_each_taken(&rt, &bare, &[b") --> )(p b (c ^x <w>) --> )"], 2)?;
    expect_each_refused(&rt, &bare, &SIXTEEN_REFUSED)?;
    let comparisons = numbered(heap, b" ^x = <v_>", 0..16)?;
    let compared = joined(heap, &begin, &comparisons)?;
    expect_each_taken(&rt, &compared, &SIXTEEN_TAKEN, 1)?;
    expect_each_refused(&rt, &compared, &SIXTEEN_REFUSED)?;
    // Those of negated conditions count, too: ten, and two for each of three.
    let ten = numbered(heap, b" ^x <v_>", 0..10)?;
    let first = joined(heap, &begin, &ten)?;
    let negated = numbered(heap, b") - (c ^x <a_> ^y <b_>", 0..3)?;
    let both = joined(heap, &first, &negated)?;
    expect_each_taken(&rt, &both, &[b") --> )", b") (c ^x <v9>) --> )"], 1)?;
    let refused: [Refused; 3] = [
        (b" ^x @<w>) --> )", 6),
        (b") (c ^x @<w>) --> )", 6),
        (b") (c ^x @<b2>) --> )", 4),
    ];
    expect_each_refused(&rt, &both, &refused)
}

#[test]
fn sixty_four_productions(rt: HostRuntime) -> Result<(), Fail> {
    let heap = rt.alloc();
    let rules = numbered(heap, b"(p r_ (c) --> )", 0..64)?;
    let full = joined(heap, CLASSES, &rules)?;
    expect_taken(&rt, &full, 64)?;
    expect_each_refused(&rt, &full, &MORE_REFUSED)?;
    expect_each_left(&rt, &full, &[b"@(wm)", b"@.", b"@("], 64)
}
