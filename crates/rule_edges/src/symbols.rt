// How many names there may be.
use crate::expect::*;
use std::test::Fail;
use texts::*;

// Sixteen names each.
const SIXTEEN: &[u8] = b"(literalize c_ a_ b_ d_ e_ f_ g_ h_ i_ j_ k_ l_ m_ n_ o_ p_)";

// Behind 256 names: `nil`, those of fifteen such classes, and fifteen more.
const FULL_TAKEN: [&[u8]; 5] = [
    b"(p z (z ^a <v>) --> (make z ^b <v> ^c n ^d nil ^e 7))",
    b"(p a (c0 ^a0 << p14 c 12345 >> ^b0 <> nil) --> )",
    b"(p nil (z ^a nil ^b = c14 ^c <=> z) - (c3) --> (modify 1 ^a c5))",
    // Variables are no names.
    b"(p z (z ^a <new> ^b = <other> ^c > <new>) --> (make z ^a <other>))",
    b"(p z (z) --> (halt))",
];

const FULL_REFUSED: [Refused; 27] = [
    (b"(p @new (z) --> )", 6),
    (b"(p @p (z) --> )", 6),
    (b"(p z (z ^a @new) --> )", 6),
    (b"(p z (z ^a = @new) --> )", 6),
    (b"(p z (z ^a <> @new) --> )", 6),
    (b"(p z (z ^a <=> @new) --> )", 6),
    (b"(p z (z ^a << @new >>) --> )", 6),
    (b"(p z (z ^a << a @new >>) --> )", 6),
    (b"(p z (z ^a << a @<v> >>) --> )", 6),
    (b"(p z (z ^a << @- >>) --> )", 6),
    (b"(p z (z ^a << @--> >>) --> )", 6),
    (b"(p z (z ^a << @<< >>) --> )", 6),
    (b"(p z (z ^a << @= >>) --> )", 6),
    (b"(p z (z) - (z ^a @new) --> )", 6),
    (b"(p z (z) --> (make z ^a @new))", 6),
    (b"(p z (z) --> (modify 1 ^a @new))", 6),
    (b"(p z (z) --> )(p a (z) --> )(p @new (z) --> )", 6),
    // Lower numbers.
    (b"(p z (z) --> )(p @z (z) --> )", 3),
    (b"(p z (@new) --> )", 3),
    (b"(p z (z ^@new 1) --> )", 3),
    (b"(p z (z) --> (make @new))", 3),
    (b"(p z (z) --> (make z ^@new 1))", 3),
    (b"(p z (z ^a < @new) --> )", 2),
    (b"(p z (z) --> (@new))", 2),
    (b"(p z (z) --> (modify @new))", 2),
    (b"(p z (z) @new --> )", 2),
    (b"(p @new. (z) --> )", 1),
];

// Behind 255 names.
const ONE_TAKEN: [&[u8]; 7] = [
    b"(p new (z) --> )",
    b"(p new (z ^a new ^b << new a new >>) --> (make z ^b new))",
    b"(p z (z ^a new) --> (make z ^b new))",
    b"(p z (z ^a <> new ^b new) --> )",
    b"(p z (z ^a << - 1 - >>) --> )",
    b"(p z (z) --> (make z ^a new ^b new) (modify 1 ^a new))",
    b"(p z (z ^a <v> ^b = <w>) --> (make z ^a new ^b <w>))",
];

const ONE_REFUSED: [Refused; 10] = [
    (b"(p new (z ^a @other) --> )", 6),
    (b"(p new (z) --> (make z ^a @other))", 6),
    (b"(p z (z ^a new ^b @other) --> )", 6),
    (b"(p z (z ^a new ^b = @other) --> )", 6),
    (b"(p z (z ^a << new @other >>) --> )", 6),
    (b"(p z (z ^a << = @<> >>) --> )", 6),
    (b"(p z (z) --> (make z ^a new ^b @other))", 6),
    (b"(p z (z ^a new) - (z ^a @other) --> )", 6),
    (b"(p new (z) --> )(p @other (z) --> )", 6),
    (b"(p new (z) --> )(p @new (z) --> )", 3),
];

#[test]
fn names_of_a_base(rt: HostRuntime) -> Result<(), Fail> {
    let heap = rt.alloc();
    let fifteen = numbered(heap, SIXTEEN, 0..15)?;
    let full = joined(
        heap,
        &fifteen,
        b"(literalize z a b c d e f g h i j k l m n)",
    )?;
    expect_each_taken(&rt, &full, &FULL_TAKEN, 1)?;
    expect_each_refused(&rt, &full, &FULL_REFUSED)?;
    let one = joined(heap, &fifteen, b"(literalize z a b c d e f g h i j k l m)")?;
    expect_each_taken(&rt, &one, &ONE_TAKEN, 1)?;
    expect_each_refused(&rt, &one, &ONE_REFUSED)?;
    let reading = taken(&rt, &full)?;
    assert_eq!(rt; reading.names.count(), 256);
    Ok(())
}
