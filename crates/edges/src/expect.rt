// What a text is expected to print.
use console::run::run;
use std::alloc::AllocGlobal;
use std::process::Abort;
use std::test::Fail;
use texts::*;

// A text, and what it prints.
pub(crate) type Case = (&'static [u8], &'static [u8]);

pub(crate) fn expect(
    rt: &(impl Abort + AllocGlobal),
    text: &[u8],
    printed: &[u8],
) -> Result<(), Fail> {
    let heap = rt.alloc();
    let got = run(heap, text)?;
    assert!(rt;
        got.as_slice() == printed,
        "{}; {}; {}",
        format_args!("the text {}", text.escape_ascii()),
        format_args!("prints {}", got.escape_ascii()),
        format_args!("and not {}", printed.escape_ascii())
    );
    Ok(())
}

// Each text after the same beginning.
pub(crate) fn expect_after(
    rt: &(impl Abort + AllocGlobal),
    before: &[u8],
    cases: &[Case],
) -> Result<(), Fail> {
    let heap = rt.alloc();
    for (text, printed) in cases {
        let whole = joined(heap, before, text)?;
        expect(rt, &whole, printed)?;
    }
    Ok(())
}

pub(crate) fn expect_all(rt: &(impl Abort + AllocGlobal), cases: &[Case]) -> Result<(), Fail> {
    expect_after(rt, b"", cases)
}

// The reader refuses the text, and nothing is printed before that. Number and place are apart, as the tables have them.
pub(crate) fn expect_refused(
    rt: &(impl Abort + AllocGlobal),
    text: &[u8],
    number: u8,
    place: usize,
) -> Result<(), Fail> {
    let heap = rt.alloc();
    let line = format!(in heap; "refused {number} reader {place}\n")?;
    expect(rt, text, line.as_bytes())
}

// Each word is refused where it stands in place of `_`.
pub(crate) fn expect_each_refused(
    rt: &(impl Abort + AllocGlobal),
    form: &[u8],
    words: &[&[u8]],
    number: u8,
) -> Result<(), Fail> {
    let heap = rt.alloc();
    let blank = form
        .iter()
        .position(|byte| *byte == b'_')
        .unwrap_or(form.len());
    for word in words {
        let text = filled(heap, form, word)?;
        expect_refused(rt, &text, number, blank)?;
    }
    Ok(())
}

// The word as a value prints as shown.
pub(crate) fn expect_value(
    rt: &(impl Abort + AllocGlobal),
    word: &[u8],
    shown: &[u8],
) -> Result<(), Fail> {
    let heap = rt.alloc();
    let text = filled(heap, b"(literalize a x)(make a ^x _)(wm)", word)?;
    let printed = filled(heap, b"1: (a ^x _)\n", shown)?;
    expect(rt, &text, &printed)
}

// Each word as a value prints as itself.
pub(crate) fn expect_symbols(rt: &(impl Abort + AllocGlobal), words: &[&[u8]]) -> Result<(), Fail> {
    for word in words {
        expect_value(rt, word, word)?;
    }
    Ok(())
}
