// How specific productions are.
use crate::expect::*;
use crate::marks::*;
use std::alloc::AllocGlobal;
use std::process::Abort;
use std::test::Fail;
use texts::*;

// A production, and its specificity.
type Specific = (&'static [u8], usize);

const SPECIFIC: [Specific; 43] = [
    (b"(p a (c) --> )", 1),
    // Constants.
    (b"(p a (c ^x 1) --> )", 2),
    (b"(p a (c ^x red) --> )", 2),
    (b"(p a (c ^x nil) --> )", 2),
    (b"(p a (c ^x 1 ^y red) --> )", 3),
    (b"(p a (c ^x 1 ^x 1 ^x 1) --> )", 4),
    // Choices: one for each constant.
    (b"(p a (c ^x << sown bare >>) --> )", 3),
    (b"(p a (c ^x << 1 >>) --> )", 2),
    (b"(p a (c ^x << 1 1 1 >>) --> )", 4),
    (b"(p a (c ^x << <v> <v> >>) --> )", 3),
    (b"(p a (c ^x << - --> << = >>) --> )", 5),
    (b"(p a (c ^x << 1 2 >> ^y << 3 4 5 >>) --> )", 6),
    // Predicates.
    (b"(p a (c ^x = 1) --> )", 2),
    (b"(p a (c ^x <> 1) --> )", 2),
    (b"(p a (c ^x < 1) --> )", 2),
    (b"(p a (c ^x <= 1) --> )", 2),
    (b"(p a (c ^x > 1) --> )", 2),
    (b"(p a (c ^x >= 1) --> )", 2),
    (b"(p a (c ^x <=> 1) --> )", 2),
    (b"(p a (c ^x = red ^y <> red ^x <=> red) --> )", 4),
    (b"(p a (c ^x = <v>) --> )", 2),
    (b"(p a (c ^x = <v> ^y = <v>) --> )", 3),
    (b"(p a (c ^x <v> ^y <> <v>) --> )", 2),
    (b"(p a (c ^x <v> ^y = <v>) --> )", 2),
    // Variables: a later occurrence under no predicate.
    (b"(p a (c ^x <v>) --> )", 1),
    (b"(p a (c ^x <v> ^y <w>) --> )", 1),
    (b"(p a (c ^x <v> ^y <v>) --> )", 2),
    (b"(p a (c ^x <v> ^x <v> ^x <v>) --> )", 3),
    (b"(p a (c ^x = <v> ^y <v>) --> )", 3),
    (b"(p a (c ^x <v> ^y > <v> ^x <v>) --> )", 3),
    (b"(p a (c ^x <v>) (c ^x <v>) --> )", 3),
    (b"(p a (c ^x <v> ^y <w>) (c ^x <w> ^y <v>) --> )", 4),
    (b"(p a (c ^x << <v> >> ^y <v>) --> )", 2),
    // Negated conditions.
    (b"(p a (c) - (c) --> )", 2),
    (b"(p a (c) - (c ^x 1) --> )", 3),
    (b"(p a (c) - (c ^x <v>) --> )", 2),
    (b"(p a (c) - (c ^x <v> ^y <v>) --> )", 3),
    (b"(p a (c ^x <v>) - (c ^x <v>) --> )", 3),
    (b"(p a (c) - (c ^x << 1 2 3 >> ^y > 4) --> )", 6),
    (b"(p a (c ^x <v>) - (c ^x <v> ^y <w>) (c ^y <v>) --> )", 5),
    (b"(p a (c)(d)(e)(c)(d)(e)-(c)-(d) --> )", 8),
    // Actions do not count.
    (
        b"(p a (c ^x <v>) --> (make c ^x <v> ^y 1) (modify 1 ^y <v>) (remove 1) (halt))",
        1,
    ),
    (
        b"(p a (c ^x 1 ^y << 2 3 >>) (d ^z <> 4) - (d ^z <v>) (e) --> (halt))",
        8,
    ),
];

fn expect_specific(
    rt: &(impl Abort + AllocGlobal),
    text: &[u8],
    specificity: usize,
) -> Result<(), Fail> {
    let reading = taken(rt, text)?;
    for rule in reading.base.rules() {
        assert_eq!(rt; rule.specificity(), specificity, "{}", text.escape_ascii());
    }
    assert_eq!(rt; reading.base.count(), 1, "{}", text.escape_ascii());
    Ok(())
}

#[test]
fn specific_productions(rt: HostRuntime) -> Result<(), Fail> {
    let heap = rt.alloc();
    for (text, specificity) in &SPECIFIC {
        let whole = joined(heap, CLASSES, text)?;
        expect_specific(&rt, &whole, *specificity)?;
    }
    // One for the class and one for each of 511 constants, or for each of 256 of a choice.
    let begin = joined(heap, CLASSES, b"(p a (c")?;
    let tests = b" ^x 1".repeat(heap, 511)?;
    let most = joined(heap, &begin, &tests)?;
    let whole = joined(heap, &most, b") --> )")?;
    expect_specific(&rt, &whole, 512)?;
    let constants = b" red".repeat(heap, 256)?;
    let choice = joined(heap, &begin, b" ^x <<")?;
    let most = joined(heap, &choice, &constants)?;
    let whole = joined(heap, &most, b" >>) --> )")?;
    expect_specific(&rt, &whole, 257)?;
    // Sixteen variables, and each again.
    let first = numbered(heap, b" ^x <v_>", 0..16)?;
    let met = joined(heap, &begin, &first)?;
    let again = joined(heap, &met, &first)?;
    let whole = joined(heap, &again, b") --> )")?;
    expect_specific(&rt, &whole, 17)
}

// A variable of an earlier production is met anew.
#[test]
fn specific_each(rt: HostRuntime) -> Result<(), Fail> {
    let heap = rt.alloc();
    let whole = joined(
        heap,
        CLASSES,
        b"(p a (c ^x <v>) --> )(p b (c ^x <v>) --> )(p d (c ^y <v>) --> )",
    )?;
    let reading = taken(&rt, &whole)?;
    assert_eq!(rt; reading.base.count(), 3);
    for rule in reading.base.rules() {
        assert_eq!(rt; rule.specificity(), 1);
    }
    Ok(())
}
