// Names: classes, attributes and productions.
use crate::expect::*;
use crate::marks::*;
use std::test::Fail;

const CLASSES_REFUSED: [Refused; 15] = [
    (b"(p a (@f) --> )", 3),
    // An attribute, `nil`, a word of the form and the production itself are no classes.
    (b"(p a (@x) --> )", 3),
    (b"(p a (@nil) --> )", 3),
    (b"(p a (@p) --> )", 3),
    (b"(p a (@a) --> )", 3),
    (b"(p a (c) --> )(p b (@a) --> )", 3),
    (b"(p a (@C) --> )", 3),
    (b"(p a (c) (@f ^x 1) --> )", 3),
    (b"(p a (c) - (@f) --> )", 3),
    // A symbol that was just used as a value is no class either.
    (b"(p a (c ^x f) (@f) --> )", 3),
    (b"(p a (c) --> (make @f))", 3),
    (b"(p a (c) --> (make @x))", 3),
    (b"(p a (c) --> (make @nil))", 3),
    (b"(p a (c) --> (make @a))", 3),
    (b"(p a (c) --> (make c ^x f) (make @f))", 3),
];

const ATTRIBUTES_REFUSED: [Refused; 24] = [
    (b"(p a (c ^@w 1) --> )", 3),
    (b"(p a (c ^@z 1) --> )", 3),
    (b"(p a (c ^@c 1) --> )", 3),
    (b"(p a (c ^@nil 1) --> )", 3),
    (b"(p a (c ^@X 1) --> )", 3),
    (b"(p a (c ^@a 1) --> )", 3),
    (b"(p a (c ^x 1 ^@z 1) --> )", 3),
    (b"(p a (c ^x w ^@w 1) --> )", 3),
    (b"(p a (d ^@x 1) --> )", 3),
    (b"(p a (e ^@x 1) --> )", 3),
    (b"(p a (c) (d ^@x 1) --> )", 3),
    (b"(p a (d) (c ^@z 1) --> )", 3),
    (b"(p a (c) - (d ^@x 1) --> )", 3),
    (b"(p a (c) --> (make d ^@x 1))", 3),
    (b"(p a (c) --> (make e ^@x 1))", 3),
    (b"(p a (c) --> (make c ^x 1 ^@z 1))", 3),
    (b"(p a (d) --> (make c ^@z 1))", 3),
    (b"(p a (c) --> (modify 1 ^@z 1))", 3),
    (b"(p a (c) --> (modify 1 ^x 1 ^@z 1))", 3),
    (b"(p a (e) --> (modify 1 ^@x 1))", 3),
    // The class is that of the unnegated condition with the number.
    (b"(p a (c) (d) --> (modify 1 ^@z 1))", 3),
    (b"(p a (c) (d) --> (modify 2 ^@x 1))", 3),
    (b"(p a (c) - (d) (e) --> (modify 2 ^@z 1))", 3),
    (b"(p a (d) - (c) --> (make c ^x 1) (modify 1 ^@x 1))", 3),
];

const TWICE: [Refused; 6] = [
    (b"(p a (c) --> )(p @a (c) --> )", 3),
    (b"(p a (c) --> )(p b (c) --> )(p @a (c) --> )", 3),
    (b"(p a (c) --> )(p b (c) --> )(p @b (d) --> )", 3),
    (b"(p nil (c) --> )(p @nil", 3),
    (b"(p c (c) --> )(p a (c ^x c) --> )(p @c .", 3),
    (b"(p p (c) --> (halt)) ( p @p", 3),
];

const TAKEN: [&[u8]; 13] = [
    // A production may share its name with a class, an attribute, a value or a word of a form.
    b"(p c (c) --> )",
    b"(p x (c ^x x) --> (make c ^x x))",
    b"(p nil (c) --> )",
    b"(p p (c) --> )",
    b"(p make (c) --> (make c))",
    b"(p halt (e) --> (halt))",
    b"(p literalize (c) --> )",
    b"(p * (c) --> )",
    b"(p <a (c) --> )",
    // Modify sees the class of its own condition.
    b"(p a (c) (d) --> (modify 1 ^x 1) (modify 2 ^z 1))",
    b"(p a (c) - (e) (d) --> (modify 2 ^z 1))",
    b"(p a (d) - (c) (c) - (d) (e) --> (modify 1 ^z 1) (modify 2 ^y 1) (modify 3))",
    b"(p a (c ^x f) --> (make d ^z w) (make c ^y f))",
];

// Texts with declarations of their own.
const SHARED: [&[u8]; 3] = [
    b"(literalize a a)(p a (a ^a a) --> (make a ^a a) (modify 1 ^a a))",
    b"(literalize nil nil)(p nil (nil ^nil nil) --> (make nil ^nil nil))",
    b"(literalize a b c d e f g h i j k l m n o p)(p q (a ^b 1 ^p 2) --> (make a ^p 3))",
];

#[test]
fn names_of_a_production(rt: HostRuntime) -> Result<(), Fail> {
    expect_each_refused(&rt, CLASSES, &CLASSES_REFUSED)?;
    expect_each_refused(&rt, CLASSES, &ATTRIBUTES_REFUSED)?;
    expect_each_refused(&rt, CLASSES, &TWICE)?;
    expect_each_taken(&rt, CLASSES, &TAKEN, 1)?;
    expect_each_taken(&rt, CLASSES, &[b"(p a (c) --> )(p A (c) --> )"], 2)?;
    expect_each_taken(&rt, b"", &SHARED, 1)?;
    // No class is declared at all.
    expect_each_refused(&rt, b"", &[(b"(p a (@c) --> )", 3), (b"(p a (@nil", 3)])
}
