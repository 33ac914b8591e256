// Every byte, in several places.
use crate::expect::*;
use std::test::Fail;
use texts::*;

// Some bytes that no word has.
const STRANGE: [Case; 12] = [
    (b"\x00", b"refused 1 reader 0\n"),
    (b"(wm)\x07", b"refused 1 reader 4\n"),
    (b"(\x7fwm)", b"refused 1 reader 1\n"),
    (b"(w\x80m)", b"refused 2 reader 1\n"),
    (b"(wm\xff)", b"refused 1 reader 3\n"),
    (b"(remove 1\x00)", b"refused 1 reader 9\n"),
    (b"(remove \x0b1)", b"refused 1 reader 8\n"),
    (
        b"(remove 1)\x0c",
        b"refused 8 memory - -\nrefused 1 reader 10\n",
    ),
    (b"(literalize a\x00b)", b"refused 1 reader 13\n"),
    (
        b"(literalize a x)(make a ^x \xc3\xa9)",
        b"refused 1 reader 27\n",
    ),
    (
        b"(literalize a x)(make a ^x b\xc3\xa9)",
        b"refused 1 reader 28\n",
    ),
    (
        b"(literalize a x)(make a ^x\x1f1)",
        b"refused 1 reader 26\n",
    ),
];

// What a text of this byte alone prints.
fn alone(byte: u8) -> &'static [u8] {
    match byte {
        b' ' | b'\t' | b'\r' | b'\n' | b';' => b"",
        // The text ends after the parenthesis.
        b'(' => b"refused 2 reader 1\n",
        b',' | b'.' => b"refused 1 reader 0\n",
        33..=126 => b"refused 2 reader 0\n",
        _ => b"refused 1 reader 0\n",
    }
}

// What `(literalize a_b)(make a)(wm)` prints with this byte in place of `_`. Its class is `a` if the byte ends the
// word.
fn within(byte: u8) -> &'static [u8] {
    match byte {
        b' ' | b'\t' | b'\r' | b'\n' => b"1: (a)\n",
        b'(' | b'^' => b"refused 2 reader 13\n",
        // The form ends, and `b` begins none.
        b')' => b"refused 2 reader 14\n",
        // The rest is a comment.
        b';' => b"refused 2 reader 28\n",
        b',' | b'.' => b"refused 1 reader 12\n",
        // One word, so the class `a` of the make is undeclared.
        33..=126 => b"refused 3 reader 22\n",
        _ => b"refused 1 reader 13\n",
    }
}

#[test]
fn every_byte(rt: HostRuntime) -> Result<(), Fail> {
    let heap = rt.alloc();
    for byte in 0..=255u8 {
        let filler = [byte];
        expect(&rt, &filler, alone(byte))?;
        let word = filled(heap, b"(literalize a_b)(make a)(wm)", &filler)?;
        expect(&rt, &word, within(byte))?;
        let comment = filled(heap, b";_\n(remove 1);_", &filler)?;
        expect(&rt, &comment, b"refused 8 memory - -\n")?;
    }
    expect_all(&rt, &STRANGE)
}
