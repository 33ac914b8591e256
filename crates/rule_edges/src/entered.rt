// What productions enter into the base, and which names they add.
use crate::expect::*;
use crate::marks::*;
use crate::shown::*;
use std::alloc::AllocGlobal;
use std::process::Abort;
use std::test::Fail;
use texts::*;

// Productions, the rules that they enter, and the names that they add, of which the first has the number 7.
type Entered = (&'static [u8], &'static [u8], &'static [u8]);

const TESTS: [Entered; 12] = [
    (b"(p a (c) --> )", b"#7: +#1 -->\n", b" a"),
    (
        b"(p a (c ^x red ^y 7) --> )",
        b"#7: +#1 ^1 #8 ^2 7 -->\n",
        b" a red",
    ),
    (
        b"(p a (c ^x nil ^y c ^x -7 ^y +007. ^x a) --> )",
        b"#7: +#1 ^1 #0 ^2 #1 ^1 -7 ^2 7 ^1 #7 -->\n",
        b" a",
    ),
    (
        b"(p a (c ^x 2147483647 ^y -2147483648 ^x -0) --> )",
        b"#7: +#1 ^1 2147483647 ^2 -2147483648 ^1 0 -->\n",
        b" a",
    ),
    (
        b"(p a (c ^y <v> ^x <w>) (d ^z <v>) (c ^x <u> ^y <w>) --> )",
        b"#7: +#1 ^2 <0> ^1 <1> +#4 ^1 <0> +#1 ^1 <2> ^2 <1> -->\n",
        b" a",
    ),
    (
        b"(p a (c ^x = 1 ^x <> 2 ^x < 3 ^x <= 4 ^x > 5 ^x >= 6 ^x <=> 7) --> )",
        b"#7: +#1 ^1 = 1 ^1 <> 2 ^1 < 3 ^1 <= 4 ^1 > 5 ^1 >= 6 ^1 <=> 7 -->\n",
        b" a",
    ),
    (
        b"(p a (c ^x = <v> ^y = <w> ^x <> <w> ^x < <w> ^x <= <v> ^x > <w> ^x >= <w> ^y <=> <v>) --> )",
        b"#7: +#1 ^1 = <0> ^2 = <1> ^1 <> <1> ^1 < <1> ^1 <= <0> ^1 > <1> ^1 >= <1> ^2 <=> <0> -->\n",
        b" a",
    ),
    (
        b"(p a (c ^x = red ^y <> blue ^x <=> red) --> )",
        b"#7: +#1 ^1 = #8 ^2 <> #9 ^1 <=> #8 -->\n",
        b" a red blue",
    ),
    (
        b"(p a (c ^y << sown 7 bare -0 sown +07. >> ^x << nil >>) --> )",
        b"#7: +#1 ^2 << #8 7 #9 0 #8 7 >> ^1 << #0 >> -->\n",
        b" a sown bare",
    ),
    (
        b"(p a (c ^x << - --> << = <> < <= > >= <=> <v> make >>) --> )",
        b"#7: +#1 ^1 << #8 #9 #10 #11 #12 #13 #14 #15 #16 #17 #18 #19 >> -->\n",
        b" a - --> << = <> < <= > >= <=> <v> make",
    ),
    (
        b"(p a (c ^x << <v> >> ^y <v>) --> (make c ^x <v>))",
        b"#7: +#1 ^1 << #8 >> ^2 <0> --> make #1 ^1 <0>\n",
        b" a <v>",
    ),
    (
        b"(p a (c ^x <<red>> ^y <=5) --> (make c ^y <<red>>))",
        b"#7: +#1 ^1 <0> ^2 #8 --> make #1 ^2 <0>\n",
        b" a <=5",
    ),
];

const FORMS: [Entered; 10] = [
    (
        b"(p a (c) - (d ^z 1) (e) - (c ^x <v> ^y <v>) - (c ^x <w>) --> )",
        b"#7: +#1 -#4 ^1 1 +#6 -#1 ^1 <0> ^2 <0> -#1 ^1 <1> -->\n",
        b" a",
    ),
    (
        b"(p a (c ^x <v>) - (e) (d ^z <w>) --> (make d ^z <w>) (modify 2 ^z <v>) (remove 1) (halt) (make e) (modify 1))",
        b"#7: +#1 ^1 <0> -#6 +#4 ^1 <1> --> make #4 ^1 <1> modify 2 ^1 <0> remove 1 halt make #6 modify 1\n",
        b" a",
    ),
    (
        b"(p a (c) --> (make c ^y 1 ^x red ^y nil ^y -5) (modify 1 ^x blue ^x red))",
        b"#7: +#1 --> make #1 ^2 1 ^1 #8 ^2 #0 ^2 -5 modify 1 ^1 #9 ^1 #8\n",
        b" a red blue",
    ),
    (
        b"(p a (c) (d) - (c) (e) --> (remove +003.) (modify 0002 ^z 1) (remove 1.) (halt) (halt))",
        b"#7: +#1 +#4 -#1 +#6 --> remove 3 modify 2 ^1 1 remove 1 halt halt\n",
        b" a",
    ),
    // Names in the order of first use.
    (
        b"(p rule (c ^x one ^y << two three >>) - (d ^z <> four) --> (make c ^x five ^y one) (modify 1 ^x six))",
        b"#7: +#1 ^1 #8 ^2 << #9 #10 >> -#4 ^1 <> #11 --> make #1 ^1 #12 ^2 #8 modify 1 ^1 #13\n",
        b" rule one two three four five six",
    ),
    (
        b"(p z (d ^z b) --> (make d ^z a))(p b (c ^y a ^x e) --> )",
        b"#5: +#4 ^1 #7 --> make #4 ^1 #8\n#7: +#1 ^2 #8 ^1 #6 -->\n",
        b" b a",
    ),
    (b"(p c (c ^x y) --> )", b"#1: +#1 ^1 #3 -->\n", b""),
    (b"(p nil (e) --> (halt))", b"#0: +#6 --> halt\n", b""),
    // Each production numbers its own variables.
    (
        b"(p a (c ^x <v> ^y <w>) --> (halt))(p b (c ^x <w> ^y <v>) --> (make c ^x <w> ^y <v>))(p d (e) --> )",
        b"#7: +#1 ^1 <0> ^2 <1> --> halt\n#8: +#1 ^1 <0> ^2 <1> --> make #1 ^1 <0> ^2 <1>\n#4: +#6 -->\n",
        b" a b",
    ),
    (
        b"(p a (c)(c)(c)(c)(c)(c)-(e)-(d) --> (remove 1)(remove 2)(remove 3)(remove 4)(remove 5)(remove 6)(modify 6)(halt))",
        b"#7: +#1 +#1 +#1 +#1 +#1 +#1 -#6 -#4 --> remove 1 remove 2 remove 3 remove 4 remove 5 remove 6 modify 6 halt\n",
        b" a",
    ),
];

fn expect_entered(rt: &(impl Abort + AllocGlobal), cases: &[Entered]) -> Result<(), Fail> {
    let heap = rt.alloc();
    for (text, rules, added) in cases {
        let whole = joined(heap, CLASSES, text)?;
        let reading = taken(rt, &whole)?;
        let entered = show_rules(heap, reading.base.rules())?;
        assert!(rt;
            entered.as_bytes() == *rules,
            "{}; {}",
            text.escape_ascii(),
            format_args!("enters {entered}")
        );
        let names = show_names(heap, &reading.names, 7)?;
        assert!(rt;
            names.as_slice() == *added,
            "{}; {}",
            text.escape_ascii(),
            format_args!("names {}", names.escape_ascii())
        );
    }
    Ok(())
}

#[test]
fn entered_rules(rt: HostRuntime) -> Result<(), Fail> {
    expect_entered(&rt, &TESTS)?;
    expect_entered(&rt, &FORMS)
}

// The fields of a class with fifteen attributes, and sixteen variables.
#[test]
fn most_fields_and_variables(rt: HostRuntime) -> Result<(), Fail> {
    let heap = rt.alloc();
    let class = b"(literalize a b c d e f g h i j k l m n o p)";
    let first = joined(
        heap,
        class,
        b"(p q (a ^b 1 ^p 2 ^i 3) --> (make a ^p 4 ^o 5))",
    )?;
    let tests = numbered(heap, b" ^p <v_>", 0..16)?;
    let second = joined(heap, &first, b"(p r (a")?;
    let most = joined(heap, &second, &tests)?;
    let whole = joined(heap, &most, b") --> (modify 1 ^b <v15>))")?;
    let reading = taken(&rt, &whole)?;
    let entered = show_rules(heap, reading.base.rules())?;
    let one = b"#17: +#1 ^1 1 ^15 2 ^8 3 --> make #1 ^15 4 ^14 5\n#18: +#1";
    let shown = numbered(heap, b" ^15 <_>", 0..16)?;
    let both = joined(heap, one, &shown)?;
    let expected = joined(heap, &both, b" --> modify 1 ^1 <15>\n")?;
    assert!(rt; entered.as_bytes() == expected.as_slice(), "{}", entered);
    for rule in reading.base.rules() {
        for condition in rule.conditions.iter() {
            assert_eq!(rt; condition.class.count(), 15);
            assert_eq!(rt; condition.class.attribute(14), Some(16));
        }
    }
    Ok(())
}
