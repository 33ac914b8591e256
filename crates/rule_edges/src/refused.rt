// A refused production leaves the names, the rules and the words as they were; and places by their numbers.
use crate::expect::*;
use crate::marks::*;
use crate::shown::*;
use std::test::Fail;
use texts::*;
use words::text::Words;

// Each has new names before its broken word, behind `(p first (c ^x old) --> )`.
const REFUSED: [&[u8]; 12] = [
    b"(p second (f) --> )",
    b"(p second",
    b"(p second (c ^x new) (f) --> )",
    b"(p second (c ^x new) - (c ^x newer .) --> )",
    b"(p second (c ^x new ^y < newer) --> )",
    b"(p second (c ^x << new newer >> ^y <> <v>) --> )",
    b"(p second (c ^x << new newer (",
    b"(p second (c ^x new) --> (make c ^x newer ^y <v>))",
    b"(p second (c ^x new) --> (make c ^x newer) (remove 2))",
    b"(p second (c ^x new) --> (modify 1 ^x newer ^y abcdefghijklmnopqrstuvwxy))",
    b"(p second (c ^x new) --> (make c ^x newer)",
    b"(p first (c ^x new) --> )",
];

// What was read, and another text to read on from.
fn continued<'a>(reading: Reading, text: &'a [u8]) -> Reading<'a> {
    let Reading { names, base, .. } = reading;
    Reading {
        words: Words::new(text),
        names,
        base,
    }
}

// What comes next in another text gets the names and the numbers as if nothing had been refused.
#[test]
fn refused_productions(rt: HostRuntime) -> Result<(), Fail> {
    let heap = rt.alloc();
    let before = joined(heap, CLASSES, b"(p first (c ^x old) --> )")?;
    for text in &REFUSED {
        let whole = joined(heap, &before, text)?;
        let mut reading = declared(&rt, &whole)?;
        assert_eq!(rt; called(heap, &mut reading)?, Answer::Taken);
        let refused = called(heap, &mut reading)?;
        assert_ne!(rt; refused, Answer::Taken);
        assert_ne!(rt; refused, Answer::NoProduction);
        assert_eq!(rt; called(heap, &mut reading)?, refused);
        let mut reading = continued(
            reading,
            b"(p third (c ^x <w> ^y newer) --> (make c ^x new))",
        );
        assert_eq!(rt; called(heap, &mut reading)?, Answer::Taken);
        let names = show_names(heap, &reading.names, 7)?;
        assert!(rt;
            names.as_slice() == b" first old third newer new".as_slice(),
            "{}",
            names.escape_ascii()
        );
        let rules = show_rules(heap, reading.base.rules())?;
        let expected = b"#7: +#1 ^1 #8 -->\n#9: +#1 ^1 <0> ^2 #10 --> make #1 ^1 #11\n";
        assert!(rt; rules.as_bytes() == expected.as_slice(), "{}", rules);
    }
    Ok(())
}

// A whole text, and the refusal's number and place.
const PLACES: [(&[u8], u8, usize); 15] = [
    (b"(literalize a x)(p", 2, 18),
    (b"(literalize a x)(p r", 2, 20),
    (b"(literalize a x)(p r ; (a) --> )", 2, 32),
    (b"(literalize a x)(p 7 (a) --> )", 2, 19),
    (b"(literalize a x)(p r -(a) --> )", 2, 21),
    (b"(literalize a x)(p r (b) --> )", 3, 22),
    (b"(literalize a x)(p r (a ^y 1) --> )", 3, 25),
    (b"(literalize a x)(p r (a ^x <> <v>) --> )", 4, 30),
    (b"(literalize a x)(p r (a ^x > red) --> )", 2, 29),
    (b"(literalize a x)(p r (a ^x << >>) --> )", 2, 30),
    (b"(literalize a x)(p r (a ^x 1,5) --> )", 1, 27),
    (b"(literalize a x)(p r (a) --> (remove 2))", 5, 37),
    (b"(literalize a x)(p r (a) --> (make a ^x <v>))", 4, 40),
    (b"(literalize a x)\n(p r (a) --> )\n(p r (a) --> )", 3, 35),
    (
        b"(literalize a x)(p abcdefghijklmnopqrstuvwxy (a) --> )",
        6,
        19,
    ),
];

#[test]
fn places_by_number(rt: HostRuntime) -> Result<(), Fail> {
    for (text, number, place) in &PLACES {
        expect_refused(&rt, text, *number, *place)?;
    }
    Ok(())
}
