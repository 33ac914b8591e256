// Limits: the bytes of a name, the names, and the bytes of a text.
use crate::expect::*;
use std::test::Fail;
use texts::*;

// Each `_` is a name of 24 bytes, and `_y` one of 25.
const NAMES: [Case; 12] = [
    (b"(literalize _ x)(make _ ^x 1)(wm)", b"1: (_ ^x 1)\n"),
    (b"(literalize a _)(make a ^_ _)(wm)", b"1: (a ^_ _)\n"),
    (b"(literalize _y)", b"refused 6 reader 12\n"),
    (b"(literalize a _y)", b"refused 6 reader 14\n"),
    (b"(literalize a x)(make a ^x _y)", b"refused 6 reader 27\n"),
    // Where a name is only looked up it is unknown.
    (b"(literalize a x)(make _y)", b"refused 3 reader 22\n"),
    (b"(literalize a x)(make a ^_y 1)", b"refused 3 reader 25\n"),
    (b"(literalize _)(make _y)", b"refused 3 reader 43\n"),
    // Where no name is asked for its length does not count.
    (b"(_y)", b"refused 2 reader 1\n"),
    (b"(remove _y)", b"refused 2 reader 8\n"),
    (b"(literalize a <_>)", b"refused 2 reader 14\n"),
    (b"(literalize a _y.)", b"refused 1 reader 14\n"),
];

// After 256 names: `nil`, 15 classes with 15 attributes each, and one with 14.
const AFTER_ALL: [Case; 11] = [
    (b"(make z ^a c0 ^n nil ^b 7)(wm)", b"1: (z ^a c0 ^b 7)\n"),
    (b"(make c0 ^a0 p14 ^p0 z)(wm)", b"1: (c0 ^a0 p14 ^p0 z)\n"),
    (b"(make z ^a new)", b"refused 6 reader 1033\n"),
    (
        b"(make z ^a c)(make z ^a b ^b C)",
        b"refused 6 reader 1051\n",
    ),
    (b"(make new)", b"refused 3 reader 1028\n"),
    (b"(make z ^new 1)", b"refused 3 reader 1031\n"),
    (b"(new)", b"refused 2 reader 1023\n"),
    (b"(literalize new)", b"refused 6 reader 1034\n"),
    (b"(literalize a)", b"refused 6 reader 1034\n"),
    (b"(literalize z)", b"refused 3 reader 1034\n"),
    (b"(remove 1)", b"refused 8 memory - -\n"),
];

// After 241 names: all of these but the class with 14 attributes. A fifteenth may be an old name and not a new one.
const AFTER_FIFTEEN: [Case; 2] = [
    (
        b"(literalize z a b c d e f g h i j k l m n c0)(make z ^c0 c0)(wm)",
        b"1: (z ^c0 c0)\n",
    ),
    (
        b"(literalize z a b c d e f g h i j k l m n o)",
        b"refused 6 reader 1022\n",
    ),
];

#[test]
fn names(rt: HostRuntime) -> Result<(), Fail> {
    let heap = rt.alloc();
    for (text, printed) in &NAMES {
        let whole = filled(heap, text, b"abcdefghijklmnopqrstuvwx")?;
        let line = filled(heap, printed, b"abcdefghijklmnopqrstuvwx")?;
        expect(&rt, &whole, &line)?;
    }
    let form = b"(literalize c_ a_ b_ d_ e_ f_ g_ h_ i_ j_ k_ l_ m_ n_ o_ p_)";
    let fifteen = numbered(heap, form, 0..15)?;
    expect_after(&rt, &fifteen, &AFTER_FIFTEEN)?;
    let all = joined(
        heap,
        &fifteen,
        b"(literalize z a b c d e f g h i j k l m n)",
    )?;
    expect_after(&rt, &all, &AFTER_ALL)
}

// 253 values beside `nil`, the class and the attribute. A make that a full memory refuses keeps its names.
#[test]
fn names_of_values(rt: HostRuntime) -> Result<(), Fail> {
    let heap = rt.alloc();
    let values = numbered(heap, b"(make a ^x v_)", 0..253)?;
    let known = joined(heap, b"(literalize a x)", &values)?;
    expect_after(
        &rt,
        &known,
        &[(
            b"(make a ^x v252)(make a ^x new)",
            b"refused 6 reader 3981\n",
        )],
    )?;
    let elements = b"(make a)".repeat(heap, 256)?;
    let full = joined(heap, b"(literalize a x)", &elements)?;
    let refused = joined(heap, &full, &values)?;
    let text = joined(
        heap,
        &refused,
        b"(remove *)(make a ^x v252)(wm)(make a ^x new)",
    )?;
    let lines = b"refused 11 memory - -\n".repeat(heap, 253)?;
    let printed = joined(heap, &lines, b"257: (a ^x v252)\nrefused 6 reader 6043\n")?;
    expect(&rt, &text, &printed)
}

// What a text begins with, what it is filled up with, what it ends with, and what it prints.
const TEXTS: [(&[u8], u8, &[u8], &[u8]); 11] = [
    (b"", b' ', b"", b""),
    (b";", b'\xff', b"", b""),
    (b";", b';', b"\n(remove 1)", b"refused 8 memory - -\n"),
    (b"(remove 1)", b'\n', b"", b"refused 8 memory - -\n"),
    (
        b"(remove 1)",
        b' ',
        b"(remove 1)",
        b"refused 8 memory - -\nrefused 8 memory - -\n",
    ),
    (
        b"(remove 1)",
        b' ',
        b"(wm",
        b"refused 8 memory - -\nrefused 2 reader 32768\n",
    ),
    (b"(literalize a", b' ', b"", b"refused 2 reader 32768\n"),
    (b"", b'a', b"", b"refused 2 reader 0\n"),
    (b"(remove ", b'0', b")", b"refused 8 memory - -\n"),
    (b"(remove ", b'1', b")", b"refused 1 reader 8\n"),
    (b"", b' ', b".", b"refused 1 reader 32767\n"),
];

// The longest text, and one byte more.
#[test]
fn bytes_of_a_text(rt: HostRuntime) -> Result<(), Fail> {
    let heap = rt.alloc();
    for (begin, filler, end, printed) in &TEXTS {
        let longest = stretched(heap, begin, *filler, end, 32768)?;
        expect(&rt, &longest, printed)?;
        let longer = stretched(heap, begin, *filler, end, 32769)?;
        expect(&rt, &longer, b"refused 6 reader 32768\n")?;
    }
    let long = stretched(heap, b"", b' ', b"", 100000)?;
    expect(&rt, &long, b"refused 6 reader 32768\n")
}
