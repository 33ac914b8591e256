// How many bytes a symbol and a variable may have.
use crate::expect::*;
use std::alloc::AllocGlobal;
use std::process::Abort;
use std::test::Fail;
use texts::*;

// Each `_` is a symbol of 24 bytes, and `_y` one of 25.
const SYMBOL: &[u8] = b"abcdefghijklmnopqrstuvwx";

const SYMBOLS_TAKEN: [&[u8]; 7] = [
    b"(p _ (c) --> )",
    b"(p a (c ^x _) --> )",
    b"(p a (c ^x = _ ^y <> _ ^x <=> _) --> )",
    b"(p a (c ^x << _ >>) --> )",
    b"(p a (c ^x << 1 _ _ >>) --> )",
    b"(p a (c) --> (make c ^x _) (modify 1 ^x _))",
    // A number may have more.
    b"(p a (c ^x 00000000000000000000000000000001) --> (modify 000000000000000000000000001 ^x -00000000000000000000000007.))",
];

const SYMBOLS_REFUSED: [Refused; 40] = [
    (b"(p @_y (c) --> )", 6),
    (b"(p a (c ^x @_y) --> )", 6),
    (b"(p a (c ^x = @_y) --> )", 6),
    (b"(p a (c ^x <> @_y) --> )", 6),
    (b"(p a (c ^x <=> @_y) --> )", 6),
    (b"(p a (c ^x << @_y >>) --> )", 6),
    (b"(p a (c ^x << 1 @_y >>) --> )", 6),
    (b"(p a (c ^x << @<_> >>) --> )", 6),
    (b"(p a (c) - (c ^x @_y) --> )", 6),
    (b"(p a (c) --> (make c ^x @_y))", 6),
    (b"(p a (c) --> (modify 1 ^x @_y))", 6),
    (b"(p a (c ^x _) --> (make c ^x @_y))", 6),
    (b"(p a (c ^x @____) --> )", 6),
    // Where a symbol cannot stand at all.
    (b"(p a (c ^x < @_y) --> )", 2),
    (b"(p a (c ^x <= @_y) --> )", 2),
    (b"(p a (c ^x > @_y) --> )", 2),
    (b"(p a (c ^x >= @_y) --> )", 2),
    (b"(p a @_y (c) --> )", 2),
    (b"(p a (c @_y) --> )", 2),
    (b"(p a (c) @_y --> )", 2),
    (b"(p a (c) - @_y --> )", 2),
    (b"(p a (c) --> @_y)", 2),
    (b"(p a (c) --> (@_y))", 2),
    (b"(p a (c) --> (modify @_y))", 2),
    (b"(p a (c) --> (remove @_y))", 2),
    (b"(p a (c) --> (halt @_y))", 2),
    // Where it is only looked up.
    (b"(p a (@_y) --> )", 3),
    (b"(p a (c) (@_y) --> )", 3),
    (b"(p a (c) - (@_y) --> )", 3),
    (b"(p a (c ^@_y 1) --> )", 3),
    (b"(p a (c) --> (make @_y))", 3),
    (b"(p a (c) --> (make c ^@_y 1))", 3),
    (b"(p a (c) --> (modify 1 ^@_y 1))", 3),
    // Where it is illegal.
    (b"(p @_y. (c) --> )", 1),
    (b"(p a (@_y.) --> )", 1),
    (b"(p a (c ^@_y. 1) --> )", 1),
    (b"(p a (c ^x @_y,) --> )", 1),
    (b"(p a (c ^x << @_y, >>) --> )", 1),
    (b"(p a (c) --> (make c ^x @_.y))", 1),
    (b"(p a (c ^x @99999999999999999999999999) --> )", 1),
];

// Each `_` has 22 bytes, so that `<_>` has 24, and `<_w>` has 25.
const VARIABLE: &[u8] = b"abcdefghijklmnopqrstuv";

const VARIABLES_TAKEN: [&[u8]; 6] = [
    b"(p a (c ^x <_>) --> (make c ^x <_>) (modify 1 ^x <_>))",
    b"(p a (c ^x = <_> ^y > <_>) --> )",
    b"(p a (c) - (c ^x <_> ^y <> <_>) --> )",
    b"(p a (c ^x << <_> >>) --> )",
    // They differ in one byte.
    b"(p a (c ^x <_> ^y <abcdefghijklmnopqrstuw>) --> (make c ^x <_>))",
    b"(p a (c ^x <_> ^y <bbcdefghijklmnopqrstuv>) --> (make c ^x <_>))",
];

const VARIABLES_REFUSED: [Refused; 30] = [
    (b"(p a (c ^x @<_w>) --> )", 6),
    (b"(p a (c ^x = @<_w>) --> )", 6),
    (b"(p a (c) (c ^x @<_w>) --> )", 6),
    (b"(p a (c) - (c ^x @<_w>) --> )", 6),
    (b"(p a (c) - (c ^x = @<_w>) --> )", 6),
    (b"(p a (c ^x <_> ^y @<_w>) --> )", 6),
    (b"(p a (c ^x @<____>) --> )", 6),
    (b"(p a (c ^x << @<_w> >>) --> )", 6),
    (b"(p a (c ^x << 1 @<_w> >>) --> )", 6),
    // It may not be met there at all: the lower number.
    (b"(p a (c ^x <> @<_w>) --> )", 4),
    (b"(p a (c ^x < @<_w>) --> )", 4),
    (b"(p a (c ^x <= @<_w>) --> )", 4),
    (b"(p a (c ^x > @<_w>) --> )", 4),
    (b"(p a (c ^x >= @<_w>) --> )", 4),
    (b"(p a (c ^x <=> @<_w>) --> )", 4),
    (b"(p a (c) - (c ^x > @<_w>) --> )", 4),
    (b"(p a (c ^x <_> ^y <> @<_w>) --> )", 4),
    (b"(p a (c) --> (make c ^x @<_w>))", 4),
    (b"(p a (c) --> (modify 1 ^x @<_w>))", 4),
    (b"(p a (c ^x <_>) --> (make c ^x @<_w>))", 4),
    (b"(p a (c) --> (make c ^x @<_>))", 4),
    (b"(p @<_w> (c) --> )", 2),
    (b"(p a (@<_w>) --> )", 2),
    (b"(p a (c ^@<_w> 1) --> )", 2),
    (b"(p a (c) --> (@<_w>))", 2),
    (b"(p a (c) --> (make @<_w>))", 2),
    (b"(p a (c) --> (modify @<_w>))", 2),
    (b"(p a (c) --> (remove @<_w>))", 2),
    (b"(p a (c ^x @<_.w>) --> )", 1),
    (b"(p a (c ^x > @<_,>) --> )", 1),
];

fn expect_filled(
    rt: &(impl Abort + AllocGlobal),
    filler: &[u8],
    forms: &[&[u8]],
    cases: &[Refused],
) -> Result<(), Fail> {
    for form in forms {
        expect_words_taken(rt, form, &[filler])?;
    }
    for (form, number) in cases {
        expect_words_refused(rt, form, &[filler], *number)?;
    }
    Ok(())
}

#[test]
fn bytes_of_a_word(rt: HostRuntime) -> Result<(), Fail> {
    let heap = rt.alloc();
    expect_filled(&rt, SYMBOL, &SYMBOLS_TAKEN, &SYMBOLS_REFUSED)?;
    expect_filled(&rt, VARIABLE, &VARIABLES_TAKEN, &VARIABLES_REFUSED)?;
    // A class and an attribute of 24 bytes.
    let class = filled(heap, b"(literalize _ _)", SYMBOL)?;
    let rule = filled(
        heap,
        b"(p _ (_ ^_ _) --> (make _ ^_ _) (modify 1 ^_ 1))",
        SYMBOL,
    )?;
    expect_each_taken(&rt, &class, &[&rule], 1)?;
    let refused: [Refused; 3] = [
        (b"(p a (@abcdefghijklmnopqrstuvwxy) --> )", 3),
        (
            b"(p a (abcdefghijklmnopqrstuvwx ^@abcdefghijklmnopqrstuvwxy 1) --> )",
            3,
        ),
        (b"(p a (@abcdefghijklmnopqrstuvw) --> )", 3),
    ];
    expect_each_refused(&rt, &class, &refused)
}
