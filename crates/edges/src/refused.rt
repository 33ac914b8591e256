// A refused form leaves the names, the classes and the words as they were. Declarations and commands are driven apart:
// the calls, and the bases that they take, differ. A refusal's number and place are apart, as the tables have them.
use languages::refusal::Refusal;
use reader::read::{read_command, read_declaration};
use rules::base::Declaring;
use std::alloc::AllocGlobal;
use std::process::Abort;
use std::test::Fail;
use values::names::Names;
use words::text::Words;

// A text, how many forms come before the refused one, and the refusal's number and place.
type Refused = (&'static [u8], usize, u8, usize);

const DECLARATIONS: [Refused; 8] = [
    (b"(literalize fresh x x)", 0, 3, 20),
    (b"(literalize fresh", 0, 2, 17),
    (b"(literalize fresh new <x>)", 0, 2, 22),
    (b"(literalize fresh new .)", 0, 1, 22),
    (b"(literalize a x)(literalize fresh x y y)", 1, 3, 38),
    (b"(literalize a x)(literalize a fresh)", 1, 3, 28),
    (
        b"(literalize a x)(literalize b)(literalize c fresh abcdefghijklmnopqrstuvwxy)",
        2,
        6,
        50,
    ),
    (
        b"(literalize b c d e f g h i j k l m n o p fresh q r)",
        0,
        6,
        48,
    ),
];

const COMMANDS: [Refused; 8] = [
    (b"(literalize a x)(make a ^x fresh ^y 1)", 0, 3, 34),
    (b"(literalize a x)(make a ^x fresh", 0, 2, 32),
    (b"(literalize a x)(make a ^x fresh ^x .)", 0, 1, 36),
    (
        b"(literalize a x)(make a ^x fresh ^x abcdefghijklmnopqrstuvwxy)",
        0,
        6,
        36,
    ),
    (b"(literalize a x)(make fresh)", 0, 3, 22),
    (
        b"(literalize a x)(make a ^x y)(wm)(make a ^x fresh fresh)",
        2,
        2,
        50,
    ),
    (
        b"(literalize a x)(make a ^x y)(remove *)(literalize fresh)",
        2,
        2,
        40,
    ),
    (b"(literalize a x)(fresh)", 0, 2, 17),
];

// The answer is the refusal with this number at this place.
fn expect_refusal<T: Drop>(
    rt: &impl Abort,
    text: &[u8],
    answer: Result<T, Refusal>,
    number: u8,
    place: usize,
) -> Result<(), Fail> {
    match answer {
        Ok(_) => Err(Fail::new(format_args!("not refused: {}", text.escape_ascii()))),
        Err(refusal) => {
            assert_eq!(rt;
                (refusal.cause.number(), refusal.place),
                (number, place),
                "{}",
                text.escape_ascii()
            );
            Ok(())
        },
    }
}

// The names are as many as before, and the new one of the refused form is not among them.
fn expect_kept(rt: &impl Abort, text: &[u8], names: &Names, count: usize) {
    assert_eq!(rt;
        (names.count(), names.find(b"fresh")),
        (count, None),
        "{}",
        text.escape_ascii()
    );
}

// After this many declarations there is one that is refused, twice.
fn expect_declared(
    rt: &(impl Abort + AllocGlobal),
    text: &[u8],
    declared: usize,
    number: u8,
    place: usize,
) -> Result<(), Fail> {
    let heap = rt.alloc();
    let mut words = Words::new(text);
    let mut names = Names::new(heap)?;
    let mut base = Declaring::new(heap)?;
    for _ in 0..declared {
        assert!(rt; read_declaration(&mut words, &mut names, &mut base)?);
    }
    let count = names.count();
    for _ in 0..2 {
        let answer = read_declaration(&mut words, &mut names, &mut base);
        expect_refusal(rt, text, answer, number, place)?;
        expect_kept(rt, text, &names, count);
        assert_eq!(rt; base.classes().count(), declared, "{}", text.escape_ascii());
    }
    Ok(())
}

// After `(literalize a x)` and this many commands there is one that is refused, twice.
fn expect_commanded(
    rt: &(impl Abort + AllocGlobal),
    text: &[u8],
    commands: usize,
    number: u8,
    place: usize,
) -> Result<(), Fail> {
    let heap = rt.alloc();
    let mut words = Words::new(text);
    let mut names = Names::new(heap)?;
    let mut base = Declaring::new(heap)?;
    assert!(rt; read_declaration(&mut words, &mut names, &mut base)?);
    assert!(rt; !read_declaration(&mut words, &mut names, &mut base)?);
    let base = base.enter().seal();
    for _ in 0..commands {
        assert!(rt; read_command(&mut words, &mut names, &base)?.is_some());
    }
    let count = names.count();
    for _ in 0..2 {
        let answer = read_command(&mut words, &mut names, &base);
        expect_refusal(rt, text, answer, number, place)?;
        expect_kept(rt, text, &names, count);
        assert_eq!(rt; base.classes().count(), 1, "{}", text.escape_ascii());
    }
    Ok(())
}

#[test]
fn refused_forms(rt: HostRuntime) -> Result<(), Fail> {
    for (text, declared, number, place) in &DECLARATIONS {
        expect_declared(&rt, text, *declared, *number, *place)?;
    }
    for (text, commands, number, place) in &COMMANDS {
        expect_commanded(&rt, text, *commands, *number, *place)?;
    }
    Ok(())
}
