// The longest texts.
use crate::expect::*;
use rules::base::Declaring;
use rules::size::Size;
use std::alloc::AllocGlobal;
use std::process::Abort;
use std::test::Fail;
use texts::*;
use values::names::Names;
use words::text::Words;

const CLASS: &[u8] =
    b"(literalize a-class-with-a-long-name the-first-attribute-of-1 another-of-its-attribute)";

// About 500 bytes, with seven tests, two constants of a choice and two settings.
const PRODUCTION: &[u8] =
    b"(p production-no-_-of-64 (a-class-with-a-long-name ^the-first-attribute-of-1 <a-variable-of-24-bytes> ^another-of-its-attribute << a-constant-of-24-bytes-- second-constant-24-bytes >> ^the-first-attribute-of-1 7) - (a-class-with-a-long-name ^the-first-attribute-of-1 <> <a-variable-of-24-bytes> ^another-of-its-attribute >= -2147483648) --> (make a-class-with-a-long-name ^the-first-attribute-of-1 <a-variable-of-24-bytes>) (modify 1 ^another-of-its-attribute second-constant-24-bytes) (remove 1) (halt))";

// Before any declaration the first call answers this, and reads nothing.
fn expect_answer(rt: &(impl Abort + AllocGlobal), text: &[u8], answer: Answer) -> Result<(), Fail> {
    let heap = rt.alloc();
    let mut reading = Reading {
        words: Words::new(text),
        names: Names::new(heap)?,
        base: Declaring::new(heap)?.enter(),
    };
    for _ in 0..2 {
        assert_eq!(rt; called(heap, &mut reading)?, answer);
        assert_eq!(rt; (reading.names.count(), reading.base.count()), (1, 0));
    }
    Ok(())
}

#[test]
fn longest_text(rt: HostRuntime) -> Result<(), Fail> {
    let heap = rt.alloc();
    let productions = numbered(heap, PRODUCTION, 0..64)?;
    let all = joined(heap, CLASS, &productions)?;
    assert!(rt; all.len() > 32000 && all.len() < 32768);
    let longest = stretched(heap, &all, b' ', b"", 32768)?;
    expect_taken(&rt, &longest, 64)?;
    let reading = taken(&rt, &longest)?;
    assert_eq!(rt;
        reading.base.size(),
        Size {
            tests: 448,
            constants: 128,
            settings: 128,
        }
    );
    // `nil`, the class, two attributes, two constants and 64 productions.
    assert_eq!(rt; reading.names.count(), 70);
    // The last byte ends the last production.
    let front = stretched(
        heap,
        CLASS,
        b' ',
        b"",
        32768usize.saturating_sub(productions.len()),
    )?;
    let close = joined(heap, &front, &productions)?;
    assert_eq!(rt; close.len(), 32768);
    expect_taken(&rt, &close, 64)?;
    let longer = stretched(heap, &all, b' ', b"", 32769)?;
    expect_answer(&rt, &longer, Answer::Refused(6, 32768))
}

// What a text begins with, and what the first call answers if spaces follow up to 32,768 bytes.
const BEGINNINGS: [(&[u8], Answer); 7] = [
    (b"", Answer::NoProduction),
    (b"(p", Answer::Refused(2, 32768)),
    (b"(p a (", Answer::Refused(2, 32768)),
    (b"(p a (c) --> )", Answer::Refused(3, 6)),
    (b"(p .", Answer::Refused(1, 3)),
    (b"(wm)", Answer::NoProduction),
    (b".", Answer::NoProduction),
];

#[test]
fn one_byte_too_many(rt: HostRuntime) -> Result<(), Fail> {
    let heap = rt.alloc();
    for (beginning, answer) in &BEGINNINGS {
        let longest = stretched(heap, beginning, b' ', b"", 32768)?;
        expect_answer(&rt, &longest, *answer)?;
        let longer = stretched(heap, beginning, b' ', b"", 32769)?;
        expect_answer(&rt, &longer, Answer::Refused(6, 32768))?;
        let long = stretched(heap, beginning, b' ', b"", 100000)?;
        expect_answer(&rt, &long, Answer::Refused(6, 32768))?;
    }
    Ok(())
}
