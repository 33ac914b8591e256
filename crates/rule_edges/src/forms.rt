// Forms of every shape: those that are taken, those that are refused by 2, and those that are no production.
use crate::expect::*;
use crate::marks::*;
use std::test::Fail;
use texts::*;

const TAKEN: [&[u8]; 32] = [
    b"(p a (c) --> )",
    b"(p a(c)-->)",
    b"(p a(c)-(c)-->(halt))",
    b" ( p a ( c ) --> ) ; a comment",
    b"(;p\np;a\na(c)-->;\n)",
    b"(p a (c ^x 1) --> )",
    b"(p a (c^x 1^y red) --> )",
    b"(p a (c ^x 1 ^x 1 ^x 2) --> )",
    b"(p a (c ^x -5) --> )",
    b"(p a (c ^x = -5) --> )",
    b"(p a (c ^x + ^y --5) --> )",
    // One symbol each.
    b"(p a (c ^x <=5 ^y >5) --> )",
    b"(p a (c ^x { ^y }) --> )",
    b"(p a (c ^x <<red ^y red>>) --> )",
    b"(p a (c ^x = 1 ^x <> 2 ^x < 3 ^x <= 4 ^x > 5 ^x >= 6 ^x <=> 7) --> )",
    b"(p a (c ^x = red ^x <> red ^x <=> red) --> )",
    b"(p a (c ^x << 1 >>) --> )",
    b"(p a (c ^x << red >>) --> )",
    b"(p a (c ^x << 1 red 1 red +1 >>) --> )",
    b"(p a (c ^x << - >> ^y << --> >>) --> )",
    b"(p a (c ^x << << >>) --> )",
    b"(p a (c ^x << = <> < <= > >= <=> <x> - --> << >>) --> )",
    b"(p a (c ^x << >>> <<>> >>) --> )",
    b"(p a (c) (d) (e) --> )",
    b"(p a (c) - (d) (e) - (c) --> )",
    b"(p a (c) - (c ^x <> 1 ^y << 1 2 >>) --> )",
    b"(p a (c) --> (halt))",
    b"(p a (c) --> (halt) (halt))",
    b"(p a (c) --> (make e) (make c ^x 1) (make c ^y red ^x 2 ^y red))",
    b"(p a (c) --> (modify 1) (modify 1 ^x 1) (modify 1 ^y red ^x 2 ^y red))",
    b"(p a (c) --> (remove 1))",
    b"(p a (c ^x <v>) --> (make c ^x <v> ^y nil) (modify 1 ^y <v>) (remove 1) (halt))",
];

// What may stand between any two words, and at both ends of a text.
const FILLERS: [&[u8]; 8] = [
    b" ",
    b"\t",
    b"\r\n",
    b" \n\r\t\t",
    b";\n",
    b" ;; (p a (c) --> )\n\n",
    b";)(^ <x> , . 99999999999\n",
    b";\x00\x07\x7f\x80\xff\n",
];

const SPACED: &[u8] =
    b"_(_p_a_(_c_^_x_<v>_^_y_<<_red_1_>>_)_-_(_d_^_z_>=_7_)_-->_(_make_c_^_x_<v>_)_(_modify_1_^_y_nil_)_(_remove_1_)_(_halt_)_)_";

const HEADS: [Refused; 14] = [
    (b"(p@", 2),
    (b"(p @)", 2),
    (b"(p @(c) --> )", 2),
    (b"(p @7 (c) --> )", 2),
    (b"(p @<a> (c) --> )", 2),
    (b"(p @- (c) --> )", 2),
    (b"(p @= (c) --> )", 2),
    (b"(p a@", 2),
    (b"(p a ; (c)@", 2),
    (b"(p a @)", 2),
    (b"(p a @--> )", 2),
    (b"(p a @b (c) --> )", 2),
    (b"(p a @-(c) --> )", 2),
    (b"(p a @- (c) (c) --> )", 2),
];

const CONDITIONS: [Refused; 26] = [
    (b"(p a (@) --> )", 2),
    (b"(p a (@(c)) --> )", 2),
    (b"(p a (@^x 1) --> )", 2),
    (b"(p a (@7) --> )", 2),
    (b"(p a (@<v>) --> )", 2),
    (b"(p a (@- c) --> )", 2),
    (b"(p a (c @x 1) --> )", 2),
    (b"(p a (c @1) --> )", 2),
    (b"(p a (c @c) --> )", 2),
    (b"(p a (c ^@^x 1) --> )", 2),
    (b"(p a (c ^@1 1) --> )", 2),
    (b"(p a (c ^@<v> 1) --> )", 2),
    (b"(p a (c ^@) --> )", 2),
    (b"(p a (c) @) --> )", 2),
    (b"(p a (c) @)", 2),
    (b"(p a (c) @b --> )", 2),
    (b"(p a (c) @<v> --> )", 2),
    (b"(p a (c) @--(c) --> )", 2),
    (b"(p a (c) @-> )", 2),
    (b"(p a (c) @---> )", 2),
    (b"(p a (c) - @- (c) --> )", 2),
    (b"(p a (c) - @-> )", 2),
    (b"(p a (c) - @--> )", 2),
    (b"(p a (c) - @c --> )", 2),
    (b"(p a (c) - (@) --> )", 2),
    (b"(p a (c) - @) --> )", 2),
];

const TESTS: [Refused; 33] = [
    (b"(p a (c ^x@) --> )", 2),
    (b"(p a (c ^x @^y 1) --> )", 2),
    (b"(p a (c ^x @(1)) --> )", 2),
    (b"(p a (c ^x @- 5) --> )", 2),
    (b"(p a (c ^x @--> ) --> )", 2),
    (b"(p a (c ^x @>> ) --> )", 2),
    (b"(p a (c ^x 1 @2) --> )", 2),
    (b"(p a (c ^x 1 @red) --> )", 2),
    (b"(p a (c ^x <v> @<w>) --> )", 2),
    (b"(p a (c ^x 1 @<> 2) --> )", 2),
    (b"(p a (c ^x { @> 1 < 5 }) --> )", 2),
    (b"(p a (c ^x = @) --> )", 2),
    (b"(p a (c ^x <> @<> 1) --> )", 2),
    (b"(p a (c ^x < @= 1) --> )", 2),
    (b"(p a (c ^x = @<< 1 >>) --> )", 2),
    (b"(p a (c ^x <> @- 1) --> )", 2),
    (b"(p a (c ^x < @red) --> )", 2),
    (b"(p a (c ^x <= @red) --> )", 2),
    (b"(p a (c ^x > @nil) --> )", 2),
    (b"(p a (c ^x >= @c) --> )", 2),
    (b"(p a (c) - (c ^x < @red) --> )", 2),
    (b"(p a (c ^x << @>>) --> )", 2),
    (b"(p a (c ^x << @) --> )", 2),
    (b"(p a (c ^x << @^ >>) --> )", 2),
    (b"(p a (c ^x << @(1) >>) --> )", 2),
    (b"(p a (c ^x << 1@) --> )", 2),
    (b"(p a (c ^x << 1 @^y >>) --> )", 2),
    (b"(p a (c ^x << 1 @( >>) --> )", 2),
    (b"(p a (c ^x << 1 >> @>>) --> )", 2),
    (b"(p a (c ^x << << 1 >> @>>) --> )", 2),
    (b"(p a (c ^x << 1 >> @2) --> )", 2),
    // `red>>` and `<<red` are symbols.
    (b"(p a (c ^x << red>>@) --> )", 2),
    (b"(p a (c ^x <<red @>>) --> )", 2),
];

const ACTIONS: [Refused; 34] = [
    (b"(p a (c) -->@", 2),
    (b"(p a (c) --> @--> )", 2),
    (b"(p a (c) --> @halt)", 2),
    (b"(p a (c) --> @- (halt))", 2),
    (b"(p a (c) --> @^x)", 2),
    (b"(p a (c) --> (@))", 2),
    (b"(p a (c) --> (@(halt)))", 2),
    (b"(p a (c) --> (@1))", 2),
    (b"(p a (c) --> (@<v>))", 2),
    (b"(p a (c) --> (@c))", 2),
    (b"(p a (c) --> (@wm))", 2),
    (b"(p a (c) --> (@p b (c) --> ))", 2),
    (b"(p a (c) --> (@literalize f))", 2),
    (b"(p a (c) --> (@MAKE c))", 2),
    (b"(p a (c) --> (@halts))", 2),
    (b"(p a (c) --> (@modif 1))", 2),
    (b"(p a (c) --> (halt @1))", 2),
    (b"(p a (c) --> (halt @^x 1))", 2),
    (b"(p a (c) --> (halt) @--> )", 2),
    (b"(p a (c) --> (halt) @c)", 2),
    (b"(p a (c) --> (halt)@", 2),
    (b"(p a (c) --> (remove@))", 2),
    (b"(p a (c) --> (remove 1 @1))", 2),
    (b"(p a (c) --> (remove 1 @^x 1))", 2),
    (b"(p a (c) --> (make@))", 2),
    (b"(p a (c) --> (make @1))", 2),
    (b"(p a (c) --> (make c @x 1))", 2),
    (b"(p a (c) --> (make c ^x@))", 2),
    (b"(p a (c) --> (make c ^x 1 @2))", 2),
    (b"(p a (c) --> (make c ^x @= 1))", 2),
    (b"(p a (c) --> (make c ^x @<< 1 >>))", 2),
    (b"(p a (c) --> (modify@))", 2),
    (b"(p a (c) --> (modify @^x 1))", 2),
    (b"(p a (c) --> (modify 1 @x 1))", 2),
];

// No production comes at the mark.
const LEFT: [&[u8]; 24] = [
    b"@(",
    b"@)",
    b"@^",
    b"@7",
    b"@c",
    b"@<v>",
    b"@.",
    b"@\x00",
    b"@p a (c) --> )",
    b"@- (p a (c) --> )",
    b"@()",
    b"@((p a (c) --> ))",
    b"@(^p)",
    b"@(7 a (c) --> )",
    b"@(. a (c) --> )",
    b"@(P a (c) --> )",
    b"@(pp a (c) --> )",
    b"@(<p> a (c) --> )",
    b"@(p. a (c) --> )",
    b"@(p-- a (c) --> )",
    b"@(make c)",
    b"@(wm)",
    b"@(halt)",
    b" ; a comment\n @( remove 1)",
];

const LEFT_BEHIND: [&[u8]; 6] = [
    b"@)",
    b" @.",
    b"@(make c)(p b (c) --> )",
    b"@(literalize f)",
    b" ;(p b (c) --> )\n @p",
    b"@(",
];

#[test]
fn shapes(rt: HostRuntime) -> Result<(), Fail> {
    let heap = rt.alloc();
    expect_each_taken(&rt, CLASSES, &TAKEN, 1)?;
    for filler in &FILLERS {
        let text = filled(heap, SPACED, filler)?;
        expect_each_taken(&rt, CLASSES, &[&text], 1)?;
    }
    expect_each_taken(&rt, CLASSES, &[b"", b" ;(p a (c) --> )"], 0)
}

#[test]
fn no_shapes(rt: HostRuntime) -> Result<(), Fail> {
    expect_each_refused(&rt, CLASSES, &HEADS)?;
    expect_each_refused(&rt, CLASSES, &CONDITIONS)?;
    expect_each_refused(&rt, CLASSES, &TESTS)?;
    expect_each_refused(&rt, CLASSES, &ACTIONS)
}

#[test]
fn no_productions(rt: HostRuntime) -> Result<(), Fail> {
    let heap = rt.alloc();
    expect_each_left(&rt, CLASSES, &LEFT, 0)?;
    let one = joined(heap, CLASSES, b"(p a (c) --> )")?;
    expect_each_left(&rt, &one, &LEFT_BEHIND, 1)
}
