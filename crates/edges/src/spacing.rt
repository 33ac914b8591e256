// Separators and comments, and words with nothing between them.
use crate::expect::*;
use std::test::Fail;
use texts::*;

// What may stand between any two words, and at both ends of a text.
const FILLERS: [&[u8]; 12] = [
    b" ",
    b"\t",
    b"\r",
    b"\n",
    b"\r\n",
    b" \n\r\t\t",
    b";\n",
    b" ;; a comment\n\n",
    b";)(^ <x> , . 99999999999\n",
    b";\x00\x07\x0b\x7f\x80\xff\n",
    b";a\r;b\n",
    b";a\n;b\n",
];

// Where words end.
const ENDS: [Case; 20] = [
    // Marks need no separator.
    (b"(literalize a x)(make a^x 7)(wm)", b"1: (a ^x 7)\n"),
    (
        b"(literalize a x y)(make a^x 7^y b)(wm)",
        b"1: (a ^x 7 ^y b)\n",
    ),
    (b"(wm)(remove 1)", b"refused 8 memory - -\n"),
    (b"((wm))", b"refused 2 reader 1\n"),
    (b"(wm())", b"refused 2 reader 3\n"),
    (b"(wm^)", b"refused 2 reader 3\n"),
    // Plain words do.
    (b"(literalizea x)", b"refused 2 reader 1\n"),
    (b"(literalize ax)(make a)", b"refused 3 reader 21\n"),
    (b"(remove1)", b"refused 2 reader 1\n"),
    // A comment ends a plain word.
    (b"(literalize a;b\n)(make a)(wm)", b"1: (a)\n"),
    (
        b"(literalize a x)(make a ^x b;c\n)(wm;\n)",
        b"1: (a ^x b)\n",
    ),
    (b"(remove;9\n1)", b"refused 8 memory - -\n"),
    // A comment runs to the end of a text without a line feed.
    (b"(remove 1);", b"refused 8 memory - -\n"),
    (b"(remove 1); (wm", b"refused 8 memory - -\n"),
    (
        b"(remove 1);(remove 1)\r(remove 1)",
        b"refused 8 memory - -\n",
    ),
    (b"(remove 1) ; \x00\xff", b"refused 8 memory - -\n"),
    // Case counts.
    (
        b"(literalize row Row ROW)(make row ^Row 1 ^ROW 2)(wm)",
        b"1: (row ^Row 1 ^ROW 2)\n",
    ),
    (
        b"(literalize row)(literalize Row)(make Row)(wm)",
        b"1: (Row)\n",
    ),
    (b"(literalize row)(make Row)", b"refused 3 reader 22\n"),
    (b"(literalize a x)(make a ^X 1)", b"refused 3 reader 25\n"),
];

#[test]
fn between_words(rt: HostRuntime) -> Result<(), Fail> {
    let heap = rt.alloc();
    for filler in &FILLERS {
        let text = filled(
            heap,
            b"_(_literalize_a_x_)_(_make_a_^_x_7_)_(_wm_)_",
            filler,
        )?;
        expect(&rt, &text, b"1: (a ^x 7)\n")?;
    }
    expect_all(&rt, &ENDS)
}
