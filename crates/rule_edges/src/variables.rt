// Where a variable may be met.
use crate::expect::*;
use crate::marks::*;
use std::test::Fail;

// A predicate other than `=` in place of `_` gives no variable its value.
const UNDER: [&[u8]; 7] = [
    b"(p a (c ^x _ @<v>) --> )",
    b"(p a (c ^x _ @<v> ^y <v>) --> )",
    b"(p a (c ^x <w> ^y _ @<v>) --> )",
    b"(p a (c) (c ^x _ @<v>) --> )",
    b"(p a (c) (c ^x _ @<v>) (c ^x <v>) --> )",
    b"(p a (c) - (c ^x _ @<v> ^y <v>) --> )",
    b"(p a (c) - (c ^x <v>) (c ^x _ @<v>) --> )",
];

// The variable has one already.
const MET: [&[u8]; 5] = [
    b"(p a (c ^x <v> ^y _ <v>) --> )",
    b"(p a (c ^x = <v> ^x _ <v>) --> )",
    b"(p a (c ^x <v>) (c ^x _ <v>) --> (make c ^x <v>))",
    b"(p a (c ^x <v>) - (c ^x _ <v>) --> )",
    b"(p a (c) - (c ^x <v> ^y _ <v>) --> )",
];

const PREDICATES: [&[u8]; 6] = [b"<>", b"<", b"<=", b">", b">=", b"<=>"];

const REFUSED: [Refused; 27] = [
    // First met in a negated condition, and again in a later one.
    (b"(p a (c) - (c ^x <v>) (c ^x @<v>) --> )", 4),
    (b"(p a (c) - (c ^x <v>) - (c ^x @<v>) --> )", 4),
    (b"(p a (c) - (c ^x = <v>) (c ^x @<v>) --> )", 4),
    (b"(p a (c) - (c ^x <v>) (c ^x = @<v>) --> )", 4),
    (b"(p a (c) - (c ^x = <v>) - (c ^x = @<v>) --> )", 4),
    (b"(p a (c) - (c ^x <v>) (c) - (e) (d ^z @<v>) --> )", 4),
    (b"(p a (c) - (c ^x <v> ^y <v>) - (d ^z @<v>) --> )", 4),
    (
        b"(p a (c ^x <w>) - (c ^x <v> ^y <w>) - (c ^x <w> ^y @<v>) --> )",
        4,
    ),
    (
        b"(p a (c) - (c) - (c ^x <v>) - (c ^y 1) (c ^x @<v>) --> (make c ^x <v>))",
        4,
    ),
    // In an action, and in no unnegated condition.
    (b"(p a (c) --> (make c ^x @<v>))", 4),
    (b"(p a (c) --> (modify 1 ^x @<v>))", 4),
    (b"(p a (c ^x <w>) --> (make c ^x @<v>))", 4),
    (b"(p a (c ^x <w>) --> (make c ^x <w> ^y @<v>))", 4),
    (
        b"(p a (c ^x <w>) --> (modify 1 ^x <w>) (modify 1 ^y @<v>))",
        4,
    ),
    (b"(p a (c) - (c ^x <v>) --> (make c ^x @<v>))", 4),
    (b"(p a (c) - (c ^x = <v>) --> (modify 1 ^x @<v>))", 4),
    (
        b"(p a (c ^x <w>) - (c ^x <w> ^y <v>) --> (make c ^x <w> ^y @<v>))",
        4,
    ),
    (b"(p a (c) --> (make c ^x @<v> ^y <v>))", 4),
    // Case counts, and so does each byte.
    (b"(p a (c ^x <v>) --> (make c ^x @<V>))", 4),
    (b"(p a (c ^x <v>) --> (make c ^x @<vv>))", 4),
    (b"(p a (c ^x <v>) (c ^x > @<v>>) --> )", 4),
    // In a choice it is a symbol, and no variable is met.
    (b"(p a (c ^x << <v> >>) --> (make c ^x @<v>))", 4),
    (b"(p a (c ^x << <v> >> ^y > @<v>) --> )", 4),
    // An attribute or a symbol is no variable.
    (b"(p a (c ^x v) --> (make c ^x @<x>))", 4),
    // Another production's variables are not its own.
    (b"(p a (c ^x <v>) --> )(p b (c) --> (make c ^x @<v>))", 4),
    (b"(p a (c ^x <v>) --> )(p b (c ^x > @<v>) --> )", 4),
    (
        b"(p a (c ^x <v>) --> )(p b (c) - (c ^x <v>) (c ^x @<v>) --> )",
        4,
    ),
];

const TAKEN: [&[u8]; 15] = [
    b"(p a (c ^x <v>) --> (make c ^x <v>) (modify 1 ^y <v>))",
    b"(p a (c ^x = <v>) --> (make c ^x <v>))",
    b"(p a (c ^x <v> ^x = <v> ^y <v>) --> )",
    b"(p a (c ^x <v>) (c ^x <v>) - (c ^x <v>) (c ^y = <v>) --> (make c ^x <v>))",
    b"(p a (c) (d ^z <v>) --> (make c ^x <v>))",
    b"(p a (c) - (e) (d ^z <v>) --> (make c ^x <v>))",
    b"(p a (c) - (c ^x <v>) --> )",
    b"(p a (c) - (c ^x = <v> ^y = <v> ^x <v>) --> )",
    b"(p a (c) - (c ^x <v> ^y <v>) - (c ^x <w> ^y <w>) --> )",
    b"(p a (c ^x <v>) - (c ^x <v> ^y <w>) (c ^y <v>) --> (make c ^x <v>))",
    b"(p a (c) - (c ^x <v>) (c ^x << <v> >>) --> )",
    // Words that begin with `<` and end with `>`.
    b"(p a (c ^x <<v>> ^y <v>) --> (make c ^x <<v>> ^y <v>))",
    b"(p a (c ^x <-> ^y <7>) --> (make c ^x <7> ^y <->))",
    b"(p a (c ^x <<> ^y <>>) --> (make c ^x <>> ^y <<>))",
    b"(p a (c ^x <<>> ^y <=>>) (c ^x > <=>> ^y <=> <<>>) --> )",
];

const TWO: [&[u8]; 2] = [
    b"(p a (c) - (c ^x <v>) --> )(p b (c ^x <v>) --> (make c ^x <v>))",
    b"(p a (c ^x <v>) --> )(p b (c) - (c ^x <v>) --> )",
];

#[test]
fn variables_met(rt: HostRuntime) -> Result<(), Fail> {
    expect_each_refused(&rt, CLASSES, &REFUSED)?;
    expect_each_taken(&rt, CLASSES, &TAKEN, 1)?;
    expect_each_taken(&rt, CLASSES, &TWO, 2)?;
    for form in &UNDER {
        expect_words_refused(&rt, form, &PREDICATES, 4)?;
    }
    for form in &MET {
        expect_words_taken(&rt, form, &PREDICATES)?;
    }
    Ok(())
}
