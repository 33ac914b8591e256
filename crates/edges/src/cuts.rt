// Forms that are cut off. The tests of productions have their own: they drive another call, over another table.
use crate::expect::*;
use std::alloc::AllocGlobal;
use std::process::Abort;
use std::test::Fail;
use texts::*;

// A word of a form, from its first byte to past its last, of which no proper beginning may stand there: such a
// beginning is refused by this number.
type Wrong = (usize, usize, u8);

// What comes before a form, the form, its words of this kind, and what it prints if it is whole.
type Form = (
    &'static [u8],
    &'static [u8],
    &'static [Wrong],
    &'static [u8],
);

// A beginning of a head is another head, and one of the class or of an attribute of a make is another name. `<` and
// `<=` are no values, and `-` is no tag.
const FORMS: [Form; 9] = [
    (b"", b"(literalize row id state)", &[(1, 11, 2)], b""),
    (
        b"(literalize a)",
        b"(literalize row id state)",
        &[(1, 11, 2)],
        b"",
    ),
    (
        b"(literalize row id state)",
        b"(make row ^id 1 ^state sown)",
        &[(1, 5, 2), (6, 9, 3), (11, 13, 3), (17, 22, 3)],
        b"",
    ),
    (
        b"(literalize row id)",
        b"(make row ^id <=x)",
        &[(1, 5, 2), (6, 9, 3), (11, 13, 3), (14, 17, 2)],
        b"",
    ),
    (
        b"(literalize row)(make row)",
        b"(remove 31)",
        &[(1, 7, 2)],
        b"refused 8 memory - -\n",
    ),
    (
        b"(literalize row)(make row)",
        b"(remove -3)",
        &[(1, 7, 2), (8, 10, 2)],
        b"refused 8 memory - -\n",
    ),
    (
        b"(literalize row)(make row)",
        b"(remove *)",
        &[(1, 7, 2)],
        b"",
    ),
    (
        b"(literalize row)(make row)",
        b"(wm)",
        &[(1, 3, 2)],
        b"1: (row)\n",
    ),
    (
        b"(literalize row)(make row)",
        b"( wm ;)\n )",
        &[(2, 4, 2)],
        b"1: (row)\n",
    ),
];

// The refusal of a form that is cut off at a place inside it. It breaks at the end of the text, unless the word that
// was cut is itself wrong.
fn refusal_of(cut: usize, words: &[Wrong]) -> (u8, usize) {
    words
        .iter()
        .find(|(start, end, _)| *start < cut && cut < *end)
        .map_or((2, cut), |(start, _, number)| (*number, *start))
}

// The form is refused if it is cut off after any byte but its last.
fn expect_cuts(
    rt: &(impl Abort + AllocGlobal),
    before: &[u8],
    form: &[u8],
    words: &[Wrong],
) -> Result<(), Fail> {
    let heap = rt.alloc();
    for cut in 1..form.len() {
        let text = joined(heap, before, &form[0..cut])?;
        let (number, place) = refusal_of(cut, words);
        expect_refused(rt, &text, number, place.saturating_add(before.len()))?;
    }
    Ok(())
}

#[test]
fn cut_off(rt: HostRuntime) -> Result<(), Fail> {
    let heap = rt.alloc();
    for (before, form, words, printed) in &FORMS {
        expect(&rt, before, b"")?;
        expect_cuts(&rt, before, form, words)?;
        let whole = joined(heap, before, form)?;
        expect(&rt, &whole, printed)?;
    }
    Ok(())
}
