// Reading the productions of a text, and what is expected of it.
use crate::marks::*;
use productions::read::read_production;
use productions::trouble::Trouble;
use reader::read::read_declaration;
use rules::base::{Declaring, Entering};
use std::alloc::{AllocGlobal, Global};
use std::process::Abort;
use std::test::Fail;
use texts::*;
use values::names::Names;
use words::text::Words;

// A text in which `@` stands before the word that is refused, or at the end, and the refusal's number.
pub(crate) type Refused = (&'static [u8], u8);

// What is left of a text, and what was read of it.
#[derive(Drop)]
pub(crate) struct Reading<'a> {
    pub words: Words<'a>,
    pub names: Names,
    pub base: Entering,
}

// What a call answers: whether it took a production, or the refusal's number and place. An enum of the three, since
// tables tell them apart by name.
#[derive(Clone, Copy, PartialEq, Eq, Debug)]
pub(crate) enum Answer {
    Taken,
    NoProduction,
    Refused(u8, usize),
}

// The names, the rules and the place of the next word: what a call that takes nothing leaves as it was.
type Kept = (usize, usize, Option<usize>);

// The declarations of a text are read.
pub(crate) fn declared<'a>(
    rt: &(impl Abort + AllocGlobal),
    text: &'a [u8],
) -> Result<Reading<'a>, Fail> {
    let heap = rt.alloc();
    let mut words = Words::new(text);
    let mut names = Names::new(heap)?;
    let mut base = Declaring::new(heap)?;
    for _ in 0..16 {
        let _ = read_declaration(&mut words, &mut names, &mut base)?;
    }
    assert!(rt; !read_declaration(&mut words, &mut names, &mut base)?);
    Ok(Reading {
        words,
        names,
        base: base.enter(),
    })
}

// One call.
pub(crate) fn called(heap: Global, reading: &mut Reading) -> Result<Answer, Fail> {
    let answer = read_production(
        &mut reading.words,
        &mut reading.names,
        &mut reading.base,
        heap,
    );
    match answer {
        Ok(true) => Ok(Answer::Taken),
        Ok(false) => Ok(Answer::NoProduction),
        Err(Trouble::Refused(refusal)) => Ok(Answer::Refused(
            refusal.cause.number(),
            refusal.place,
        )),
        Err(Trouble::NoMemory) => Err(Fail::new("no memory")),
    }
}

// The place of the next word.
fn next_place(words: &Words) -> Option<usize> {
    let mut ahead = *words;
    ahead.next().map(|word| word.place)
}

fn kept(reading: &Reading) -> Kept {
    (
        reading.names.count(),
        reading.base.count(),
        next_place(&reading.words),
    )
}

// Productions are taken up to the first call that takes none: its answer. That call changes nothing, and made again it
// answers the same.
fn ended(rt: &(impl Abort + AllocGlobal), reading: &mut Reading) -> Result<Answer, Fail> {
    let heap = rt.alloc();
    for rules in 0..65usize {
        let before = kept(reading);
        let answer = called(heap, reading)?;
        if answer == Answer::Taken {
            assert_eq!(rt; reading.base.count(), rules.saturating_add(1));
        } else {
            assert_eq!(rt; kept(reading), before);
            assert_eq!(rt; called(heap, reading)?, answer);
            assert_eq!(rt; kept(reading), before);
            return Ok(answer);
        }
    }
    Err(Fail::new("more than 64 rules"))
}

// All productions of a text are taken, and the call that takes none says so.
pub(crate) fn taken<'a>(
    rt: &(impl Abort + AllocGlobal),
    text: &'a [u8],
) -> Result<Reading<'a>, Fail> {
    let mut reading = declared(rt, text)?;
    let answer = ended(rt, &mut reading)?;
    assert_eq!(rt; answer, Answer::NoProduction, "{}", text.escape_ascii());
    Ok(reading)
}

// The text is taken whole, and has so many rules.
pub(crate) fn expect_taken(
    rt: &(impl Abort + AllocGlobal),
    text: &[u8],
    rules: usize,
) -> Result<(), Fail> {
    let reading = taken(rt, text)?;
    assert_eq!(rt;
        (reading.base.count(), next_place(&reading.words)),
        (rules, None),
        "{}",
        text.escape_ascii()
    );
    Ok(())
}

// The text is refused by this number at this place. The two are apart, as the tables have them.
pub(crate) fn expect_refused(
    rt: &(impl Abort + AllocGlobal),
    text: &[u8],
    number: u8,
    place: usize,
) -> Result<(), Fail> {
    let mut reading = declared(rt, text)?;
    let answer = ended(rt, &mut reading)?;
    assert_eq!(rt;
        answer,
        Answer::Refused(number, place),
        "{}",
        text.escape_ascii()
    );
    Ok(())
}

// The text behind this beginning is refused where its mark stands.
pub(crate) fn expect_marked(
    rt: &(impl Abort + AllocGlobal),
    before: &[u8],
    text: &[u8],
    number: u8,
) -> Result<(), Fail> {
    let heap = rt.alloc();
    let rest = unmarked(heap, text)?;
    let whole = joined(heap, before, &rest)?;
    let place = before.len().saturating_add(mark(text));
    expect_refused(rt, &whole, number, place)
}

// Each text behind the same beginning is refused where its mark stands.
pub(crate) fn expect_each_refused(
    rt: &(impl Abort + AllocGlobal),
    before: &[u8],
    cases: &[Refused],
) -> Result<(), Fail> {
    for (text, number) in cases {
        expect_marked(rt, before, text, *number)?;
    }
    Ok(())
}

// Each text behind the same beginning is taken whole, and there are then so many rules.
pub(crate) fn expect_each_taken(
    rt: &(impl Abort + AllocGlobal),
    before: &[u8],
    cases: &[&[u8]],
    rules: usize,
) -> Result<(), Fail> {
    let heap = rt.alloc();
    for text in cases {
        let whole = joined(heap, before, text)?;
        expect_taken(rt, &whole, rules)?;
    }
    Ok(())
}

// Behind the same beginning no production comes at the mark of each text, and there are then so many rules.
pub(crate) fn expect_each_left(
    rt: &(impl Abort + AllocGlobal),
    before: &[u8],
    cases: &[&[u8]],
    rules: usize,
) -> Result<(), Fail> {
    let heap = rt.alloc();
    for text in cases {
        let rest = unmarked(heap, text)?;
        let whole = joined(heap, before, &rest)?;
        let place = before.len().saturating_add(mark(text));
        let reading = taken(rt, &whole)?;
        assert_eq!(rt;
            (reading.base.count(), next_place(&reading.words)),
            (rules, Some(place)),
            "{}",
            text.escape_ascii()
        );
    }
    Ok(())
}

// Behind the usual classes each word, in place of `_`, is refused at the mark.
pub(crate) fn expect_words_refused(
    rt: &(impl Abort + AllocGlobal),
    form: &[u8],
    words: &[&[u8]],
    number: u8,
) -> Result<(), Fail> {
    let heap = rt.alloc();
    for word in words {
        let text = filled(heap, form, word)?;
        expect_marked(rt, CLASSES, &text, number)?;
    }
    Ok(())
}

// Behind the usual classes one rule is taken with each word in place of `_`.
pub(crate) fn expect_words_taken(
    rt: &(impl Abort + AllocGlobal),
    form: &[u8],
    words: &[&[u8]],
) -> Result<(), Fail> {
    let heap = rt.alloc();
    for word in words {
        let text = filled(heap, form, word)?;
        let rest = unmarked(heap, &text)?;
        let whole = joined(heap, CLASSES, &rest)?;
        expect_taken(rt, &whole, 1)?;
    }
    Ok(())
}
