// Words that no form takes, and symbols that look like them.
use crate::expect::*;
use std::test::Fail;

// Each place of a form.
const PLACES: [&[u8]; 17] = [
    b"_",
    b"(_)",
    b"(literalize _)",
    b"(literalize a _)",
    b"(literalize a x _)",
    b"(literalize a x)_",
    b"(literalize a x)(_)",
    b"(literalize a x)(make _)",
    b"(literalize a x)(make a _)",
    b"(literalize a x)(make a ^_ 1)",
    b"(literalize a x)(make a ^x _)",
    b"(literalize a x)(make a ^x 1 _)",
    b"(remove _)",
    b"(remove 1 _)",
    b"(remove * _)",
    b"(wm _)",
    b"(wm)_",
];

// Special words and variables.
const SPECIAL: [&[u8]; 22] = [
    b"-",
    b"-->",
    b"<<",
    b">>",
    b"=",
    b"<>",
    b"<",
    b"<=",
    b">",
    b">=",
    b"<=>",
    b"<x>",
    b"<row>",
    b"<7>",
    b"<->",
    b"<<>",
    b"<>>",
    b"<<>>",
    b"<=>>",
    b"<<red>>",
    b"<x><y>",
    b"<abcdefghijklmnopqrstuvwxyz>",
];

const ILLEGAL: [&[u8]; 7] = [
    b".",
    b"a,b",
    b"1.5",
    b"2147483648",
    b"<x.>",
    b"\x00",
    b"\xff",
];

const SYMBOLS: [&[u8]; 28] = [
    b"<x", b"x>", b"<<x", b"x>>", b"<<<", b">>>", b"><", b"=<", b"=>", b"==", b"<-", b"->", b"<=x",
    b">=x", b"<=<", b"<--", b"-->x", b"--->", b"<x>y", b"x<y>", b">x<", b"*", b"**", b"!", b"~",
    b"\"a", b"{x}", b"|a|",
];

#[test]
fn taken_by_no_form(rt: HostRuntime) -> Result<(), Fail> {
    for form in &PLACES {
        expect_each_refused(&rt, form, &SPECIAL, 2)?;
        expect_each_refused(&rt, form, &ILLEGAL, 1)?;
    }
    expect_symbols(&rt, &SYMBOLS)?;
    expect(
        &rt,
        b"(literalize <x x>)(make <x ^x> =<)(wm)",
        b"1: (<x ^x> =<)\n",
    )
}
