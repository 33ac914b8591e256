// Classes and attributes.
use crate::expect::*;
use std::test::Fail;
use texts::*;

const DECLARED: [Case; 30] = [
    // Attributes.
    (b"(literalize)", b"refused 2 reader 11\n"),
    (b"(literalize a)(make a)(wm)", b"1: (a)\n"),
    (
        b"(literalize a b c d e f g h i j k l m n o p)(make a ^p 1 ^b 2)(wm)",
        b"1: (a ^b 2 ^p 1)\n",
    ),
    (
        b"(literalize a b c d e f g h i j k l m n o p q)",
        b"refused 6 reader 44\n",
    ),
    // The class's own name is one more attribute, too.
    (
        b"(literalize a b c d e f g h i j k l m n o p a)",
        b"refused 6 reader 44\n",
    ),
    (
        b"(literalize a b c d e f g h i j k l m n o p nil)",
        b"refused 6 reader 44\n",
    ),
    (b"(literalize a x x)", b"refused 3 reader 16\n"),
    (b"(literalize a x y z x)", b"refused 3 reader 20\n"),
    (b"(literalize a nil nil)", b"refused 3 reader 18\n"),
    // The sixteenth attribute is also named twice.
    (
        b"(literalize a b c d e f g h i j k l m n o p b)",
        b"refused 3 reader 44\n",
    ),
    (
        b"(literalize a b c d e f g h i j k l m n o p p)",
        b"refused 3 reader 44\n",
    ),
    (b"(literalize a x 7)", b"refused 2 reader 16\n"),
    (b"(literalize a ^x)", b"refused 2 reader 14\n"),
    (b"(literalize a (x))", b"refused 2 reader 14\n"),
    // Classes.
    (b"(literalize 7)", b"refused 2 reader 12\n"),
    (b"(literalize ^a)", b"refused 2 reader 12\n"),
    (b"(literalize (a))", b"refused 2 reader 12\n"),
    (
        b"(literalize a x)(literalize a y)",
        b"refused 3 reader 28\n",
    ),
    (
        b"(literalize a)(literalize b)(literalize a",
        b"refused 3 reader 40\n",
    ),
    (
        b"(literalize nil)(literalize nil)",
        b"refused 3 reader 28\n",
    ),
    (
        b"(literalize a x)(literalize x a)(make x ^a 1)(make a ^x 2)(wm)",
        b"2: (a ^x 2)\n1: (x ^a 1)\n",
    ),
    // A class and its attribute may share a name, with each other and with a value.
    (b"(literalize a a)(make a ^a a)(wm)", b"1: (a ^a a)\n"),
    (
        b"(literalize a x)(literalize b x)(make b ^x 1)(wm)",
        b"1: (b ^x 1)\n",
    ),
    // `nil` is a name like others, but a field that holds it is not printed.
    (
        b"(literalize nil nil)(make nil ^nil 1)(wm)",
        b"1: (nil ^nil 1)\n",
    ),
    (
        b"(literalize nil nil)(make nil ^nil nil)(wm)",
        b"1: (nil)\n",
    ),
    (
        b"(literalize a x y)(make a ^x nil ^y 0)(wm)",
        b"1: (a ^y 0)\n",
    ),
    (
        b"(literalize a x y)(make a ^x Nil ^y NIL)(wm)",
        b"1: (a ^x Nil ^y NIL)\n",
    ),
    // Keywords are names.
    (
        b"(literalize literalize make wm)(make literalize ^make remove ^wm wm)(wm)",
        b"1: (literalize ^make remove ^wm wm)\n",
    ),
    (
        b"(literalize make)(literalize wm)(make wm)(make make)(wm)",
        b"2: (make)\n1: (wm)\n",
    ),
    (
        b"(literalize * +)(make * ^+ *)(wm)(remove *)(wm)",
        b"1: (* ^+ *)\n",
    ),
];

// After sixteen classes, of ten forms of 18 bytes and six of 20.
const AFTER_SIXTEEN: [Case; 8] = [
    (
        b"(make c15 ^x15 1)(make c0)(wm)",
        b"2: (c0)\n1: (c15 ^x15 1)\n",
    ),
    (b"(literalize c16)", b"refused 6 reader 312\n"),
    (b"(literalize x0)", b"refused 6 reader 312\n"),
    // The seventeenth class is also declared twice.
    (b"(literalize c3)", b"refused 3 reader 312\n"),
    (b"(literalize c15)", b"refused 3 reader 312\n"),
    (b"(literalize 7)", b"refused 2 reader 312\n"),
    (b"(literalize 7.5)", b"refused 1 reader 312\n"),
    (b"(literalize", b"refused 2 reader 311\n"),
];

#[test]
fn declared(rt: HostRuntime) -> Result<(), Fail> {
    let heap = rt.alloc();
    expect_all(&rt, &DECLARED)?;
    let sixteen = numbered(heap, b"(literalize c_ x_)", 0..16)?;
    expect_after(&rt, &sixteen, &AFTER_SIXTEEN)
}
