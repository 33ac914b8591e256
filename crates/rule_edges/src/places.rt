// What every kind of word does at every place of a production, the end of the text included.
use crate::expect::*;
use crate::marks::*;
use std::alloc::AllocGlobal;
use std::process::Abort;
use std::test::Fail;
use texts::*;

// A word of each kind.
const WORDS: [&[u8]; 20] = [
    b"(", b")", b"^", b"-", b"-->", b"<<", b">>", b"=", b"<>", b"<", b"<=", b">", b">=", b"<=>",
    b"7", b"<v>", b"word", b"c", b"x", b"make",
];

const ILLEGAL: [&[u8]; 12] = [
    b".",
    b",",
    b"c.",
    b"7..",
    b"1.5",
    b"-->.",
    b"<v,>",
    b"<<.",
    b"2147483648",
    b"-2147483649",
    b"\x00",
    b"\xff",
];

// What a word does: it leads on, it makes the production whole, or it is refused by a number. An enum of the three, as
// for a whole call.
#[derive(Clone, Copy)]
enum Effect {
    LeadsOn,
    Completes,
    Breaks(u8),
}

// What may come next.
#[derive(Clone, Copy)]
enum Follows {
    // the production's name
    Name,
    // `(`
    Opening,
    // `)`
    Closing,
    // a class
    Class,
    // `^` or `)`
    Pairs,
    // an attribute of `c`
    Attribute,
    // a test
    Test,
    // a test, but `<v>` may not be met
    UnmetTest,
    // a constant or a variable
    Operand,
    // the same, but `<v>` may not be met
    UnmetOperand,
    // a number or a variable
    Number,
    // the same, but `<v>` may not be met
    UnmetNumber,
    // the first constant of a choice
    Choice,
    // another one, or `>>`
    Choices,
    // another condition, or `-->`
    Conditions,
    // another action, or the production's `)`
    Actions,
    // the head of an action
    Head,
    // the number of the only unnegated condition
    Element,
}

// What a production begins with, and what may come next.
type Place = (&'static [u8], Follows);

const SYMBOLS: [&[u8]; 4] = [b"word", b"c", b"x", b"make"];

const OPERANDS: [&[u8]; 6] = [b"<v>", b"7", b"word", b"c", b"x", b"make"];

const NUMBERS: [&[u8]; 2] = [b"7", b"<v>"];

const TESTS: [&[u8]; 14] = [
    b"<<", b"=", b"<>", b"<", b"<=", b">", b">=", b"<=>", b"<v>", b"7", b"word", b"c", b"x",
    b"make",
];

const CHOICE: [&[u8]; 16] = [
    b"-", b"-->", b"<<", b"=", b"<>", b"<", b"<=", b">", b">=", b"<=>", b"<v>", b"7", b"word",
    b"c", b"x", b"make",
];

// Up to the first condition's end.
const FIRST: [Place; 30] = [
    (b"(p ", Follows::Name),
    (b"(p a ", Follows::Opening),
    (b"(p a (", Follows::Class),
    (b"(p a (c ", Follows::Pairs),
    (b"(p a (c ^", Follows::Attribute),
    (b"(p a (c ^x ", Follows::Test),
    (b"(p a (c ^x 1 ", Follows::Pairs),
    (b"(p a (c ^x red ", Follows::Pairs),
    (b"(p a (c ^x <w> ", Follows::Pairs),
    (b"(p a (c ^x <> 1 ", Follows::Pairs),
    (b"(p a (c ^x <> red ", Follows::Pairs),
    (b"(p a (c ^x = <w> ", Follows::Pairs),
    (b"(p a (c ^x << 1 >> ", Follows::Pairs),
    (b"(p a (c ^x 1 ^", Follows::Attribute),
    (b"(p a (c ^y 1 ^x ", Follows::Test),
    (b"(p a (c ^x = ", Follows::Operand),
    (b"(p a (c ^x <> ", Follows::UnmetOperand),
    (b"(p a (c ^x <=> ", Follows::UnmetOperand),
    (b"(p a (c ^x < ", Follows::UnmetNumber),
    (b"(p a (c ^x <= ", Follows::UnmetNumber),
    (b"(p a (c ^x > ", Follows::UnmetNumber),
    (b"(p a (c ^x >= ", Follows::UnmetNumber),
    (b"(p a (c ^y <v> ^x <> ", Follows::Operand),
    (b"(p a (c ^y = <v> ^x <=> ", Follows::Operand),
    (b"(p a (c ^y <v> ^x < ", Follows::Number),
    (b"(p a (c ^y = <v> ^x >= ", Follows::Number),
    (b"(p a (c ^x << ", Follows::Choice),
    (b"(p a (c ^x << 1 ", Follows::Choices),
    (b"(p a (c ^x << << ", Follows::Choices),
    (b"(p a (c ^x << red - ", Follows::Choices),
];

// Past the first condition.
const LATER: [Place; 28] = [
    (b"(p a (c) ", Follows::Conditions),
    (b"(p a (c ^x 1) ", Follows::Conditions),
    (b"(p a (c) (", Follows::Class),
    (b"(p a (c) (c ", Follows::Pairs),
    (b"(p a (c) (c ^", Follows::Attribute),
    (b"(p a (c) (c ^x ", Follows::Test),
    (b"(p a (c) (c ^x > ", Follows::UnmetNumber),
    (b"(p a (c ^x <v>) (c ^x > ", Follows::Number),
    (b"(p a (c) (c) ", Follows::Conditions),
    (b"(p a (c) - ", Follows::Opening),
    (b"(p a (c) - (", Follows::Class),
    (b"(p a (c) - (c ", Follows::Pairs),
    (b"(p a (c) - (c ^", Follows::Attribute),
    (b"(p a (c) - (c ^x ", Follows::Test),
    (b"(p a (c) - (c ^x 1 ", Follows::Pairs),
    (b"(p a (c) - (c ^x = ", Follows::Operand),
    (b"(p a (c) - (c ^x <> ", Follows::UnmetOperand),
    (b"(p a (c) - (c ^x <= ", Follows::UnmetNumber),
    (b"(p a (c) - (c ^y <v> ^x > ", Follows::Number),
    (b"(p a (c) - (c ^x << ", Follows::Choice),
    (b"(p a (c) - (c ^x << 1 ", Follows::Choices),
    (b"(p a (c) - (c) ", Follows::Conditions),
    (b"(p a (c) - (c) - ", Follows::Opening),
    // The variable was first met in another negated condition.
    (b"(p a (c) - (c ^x <v>) (c ^x ", Follows::UnmetTest),
    (b"(p a (c) - (c ^x <v>) - (c ^x ", Follows::UnmetTest),
    (b"(p a (c) - (c ^x <v>) (c ^x = ", Follows::UnmetOperand),
    (b"(p a (c) - (c ^x <v>) - (c ^x <> ", Follows::UnmetOperand),
    (b"(p a (c) - (c ^x <v>) (c ^x << ", Follows::Choice),
];

// Past the arrow.
const ACTIONS: [Place; 30] = [
    (b"(p a (c) --> ", Follows::Actions),
    (b"(p a (c) - (c) --> ", Follows::Actions),
    (b"(p a (c) --> (", Follows::Head),
    (b"(p a (c) --> (make ", Follows::Class),
    (b"(p a (c) --> (make c ", Follows::Pairs),
    (b"(p a (c) --> (make c ^", Follows::Attribute),
    (b"(p a (c) --> (make c ^x ", Follows::UnmetOperand),
    (b"(p a (c ^x <v>) --> (make c ^x ", Follows::Operand),
    (
        b"(p a (c) - (c ^x <v>) --> (make c ^x ",
        Follows::UnmetOperand,
    ),
    (b"(p a (c) --> (make c ^x 1 ", Follows::Pairs),
    (b"(p a (c) --> (make c ^x red ", Follows::Pairs),
    (b"(p a (c ^x <v>) --> (make c ^x <v> ", Follows::Pairs),
    (b"(p a (c) --> (make c ^x 1 ^", Follows::Attribute),
    (b"(p a (c) --> (modify ", Follows::Element),
    (b"(p a (c) --> (modify 1 ", Follows::Pairs),
    (b"(p a (c) --> (modify 1 ^", Follows::Attribute),
    (b"(p a (c) --> (modify 1 ^x ", Follows::UnmetOperand),
    (b"(p a (c ^x <v>) --> (modify 1 ^x ", Follows::Operand),
    (
        b"(p a (c) - (c ^x <v>) --> (modify 1 ^x ",
        Follows::UnmetOperand,
    ),
    (b"(p a (c) --> (modify 1 ^x 1 ", Follows::Pairs),
    (b"(p a (c) --> (modify 1 ^x 1 ^", Follows::Attribute),
    (b"(p a (c) --> (remove ", Follows::Element),
    (b"(p a (c) --> (remove 1 ", Follows::Closing),
    (b"(p a (c) --> (halt ", Follows::Closing),
    (b"(p a (c) --> (make c) ", Follows::Actions),
    (b"(p a (c) --> (modify 1 ^x 1) ", Follows::Actions),
    (b"(p a (c) --> (remove 1) ", Follows::Actions),
    (b"(p a (c) --> (halt) ", Follows::Actions),
    (b"(p a (c) --> (halt) (", Follows::Head),
    (b"(p a (c) --> (halt) (modify ", Follows::Element),
];

// Whether the word leads on.
fn leads_on(word: &[u8], follows: Follows) -> bool {
    match follows {
        Follows::Name => SYMBOLS.contains(&word),
        Follows::Opening | Follows::Actions => matches!(word, b"("),
        Follows::Closing => matches!(word, b")"),
        Follows::Class => matches!(word, b"c"),
        Follows::Pairs => matches!(word, b"^" | b")"),
        Follows::Attribute => matches!(word, b"x"),
        Follows::Test => TESTS.contains(&word),
        Follows::UnmetTest => TESTS.contains(&word) && !matches!(word, b"<v>"),
        Follows::Operand => OPERANDS.contains(&word),
        Follows::UnmetOperand => OPERANDS.contains(&word) && !matches!(word, b"<v>"),
        Follows::Number => NUMBERS.contains(&word),
        Follows::UnmetNumber => matches!(word, b"7"),
        Follows::Choice => CHOICE.contains(&word),
        Follows::Choices => CHOICE.contains(&word) || matches!(word, b">>"),
        Follows::Conditions => matches!(word, b"(" | b"-" | b"-->"),
        Follows::Head => matches!(word, b"make"),
        Follows::Element => false,
    }
}

// The number by which a word is refused that does not lead on.
fn breaks(word: &[u8], follows: Follows) -> u8 {
    match follows {
        Follows::Class | Follows::Attribute if SYMBOLS.contains(&word) => 3,
        Follows::UnmetTest | Follows::UnmetOperand | Follows::UnmetNumber
            if matches!(word, b"<v>") => 4,
        Follows::Element if matches!(word, b"7") => 5,
        _ => 2,
    }
}

fn effect_of(word: &[u8], follows: Follows) -> Effect {
    if leads_on(word, follows) {
        return Effect::LeadsOn;
    }
    match follows {
        Follows::Actions if matches!(word, b")") => Effect::Completes,
        _ => Effect::Breaks(breaks(word, follows)),
    }
}

// The word has this effect behind this beginning. Where it leads on, the text ends too early.
fn expect_effect(
    rt: &(impl Abort + AllocGlobal),
    before: &[u8],
    word: &[u8],
    effect: Effect,
) -> Result<(), Fail> {
    let heap = rt.alloc();
    let text = joined(heap, before, word)?;
    match effect {
        Effect::LeadsOn => expect_refused(rt, &text, 2, text.len()),
        Effect::Completes => expect_taken(rt, &text, 1),
        Effect::Breaks(number) => expect_refused(rt, &text, number, before.len()),
    }
}

fn expect_places(rt: &(impl Abort + AllocGlobal), places: &[Place]) -> Result<(), Fail> {
    let heap = rt.alloc();
    for (beginning, follows) in places {
        let before = joined(heap, CLASSES, beginning)?;
        expect_refused(rt, &before, 2, before.len())?;
        for word in &WORDS {
            expect_effect(rt, &before, word, effect_of(word, *follows))?;
        }
        for word in &ILLEGAL {
            expect_effect(rt, &before, word, Effect::Breaks(1))?;
        }
    }
    Ok(())
}

#[test]
fn every_word_at_every_place(rt: HostRuntime) -> Result<(), Fail> {
    expect_places(&rt, &FIRST)?;
    expect_places(&rt, &LATER)?;
    expect_places(&rt, &ACTIONS)
}
