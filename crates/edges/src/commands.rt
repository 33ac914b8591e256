// Makes, working memory, and which form may come when.
use crate::expect::*;
use std::test::Fail;
use texts::*;

// After `(literalize a x)(literalize b y z)`, which has 34 bytes.
const MAKES: [Case; 32] = [
    (b"(make c)", b"refused 3 reader 40\n"),
    (b"(make x)", b"refused 3 reader 40\n"),
    (b"(make nil)", b"refused 3 reader 40\n"),
    (b"(make make)", b"refused 3 reader 40\n"),
    (b"(make c ^. 1)", b"refused 3 reader 40\n"),
    (b"(make 7)", b"refused 2 reader 40\n"),
    (b"(make)", b"refused 2 reader 39\n"),
    (b"(make ^x 1)", b"refused 2 reader 40\n"),
    (b"(make (a))", b"refused 2 reader 40\n"),
    (b"(make a ^y 1)", b"refused 3 reader 43\n"),
    (b"(make a ^a 1)", b"refused 3 reader 43\n"),
    (b"(make a ^nil 1)", b"refused 3 reader 43\n"),
    (b"(make b ^y 1 ^x 1)", b"refused 3 reader 48\n"),
    (b"(make a ^7 1)", b"refused 2 reader 43\n"),
    (b"(make a ^)", b"refused 2 reader 43\n"),
    (b"(make a ^^x 1)", b"refused 2 reader 43\n"),
    (b"(make a x 1)", b"refused 2 reader 42\n"),
    (b"(make a 1)", b"refused 2 reader 42\n"),
    (b"(make a ^x)", b"refused 2 reader 44\n"),
    (b"(make a ^x ^x 1)", b"refused 2 reader 45\n"),
    (b"(make a ^x (1))", b"refused 2 reader 45\n"),
    (b"(make a ^x 1 2)", b"refused 2 reader 47\n"),
    (b"(make a ^x 1 x)", b"refused 2 reader 47\n"),
    (b"(make a (", b"refused 2 reader 42\n"),
    (
        b"(make a)(make b ^z 2 ^y 1)(wm)",
        b"1: (a)\n2: (b ^y 1 ^z 2)\n",
    ),
    (
        b"(make b ^z 2)(make b ^y c)(wm)",
        b"1: (b ^z 2)\n2: (b ^y c)\n",
    ),
    // The last value of an attribute stands.
    (b"(make a ^x 1 ^x 2)(wm)", b"1: (a ^x 2)\n"),
    (b"(make a ^x 1 ^x nil)(wm)", b"1: (a)\n"),
    (b"(make b ^y nil ^z 1 ^y c)(wm)", b"1: (b ^y c ^z 1)\n"),
    (b"(make a ^x 1 ^x <x>)(wm)", b"refused 2 reader 50\n"),
    // A refused make adds nothing.
    (
        b"(make a)(wm)(make a ^y 1)(wm)",
        b"1: (a)\nrefused 3 reader 55\n",
    ),
    (
        b"(make a ^x a)(make a ^x b)(wm)",
        b"1: (a ^x a)\n2: (a ^x b)\n",
    ),
];

const MEMORY: [Case; 27] = [
    (b"(remove 1)", b"refused 8 memory - -\n"),
    (b"(remove 0)", b"refused 8 memory - -\n"),
    (
        b"(literalize a)(make a)(remove -1)(wm)",
        b"refused 8 memory - -\n1: (a)\n",
    ),
    (
        b"(literalize a)(make a)(remove -0)(wm)",
        b"refused 8 memory - -\n1: (a)\n",
    ),
    (
        b"(literalize a)(make a)(remove 2147483647)(wm)",
        b"refused 8 memory - -\n1: (a)\n",
    ),
    (
        b"(literalize a)(make a)(remove -2147483648)(wm)",
        b"refused 8 memory - -\n1: (a)\n",
    ),
    (
        b"(literalize a)(make a)(remove -2147483647)(wm)",
        b"refused 8 memory - -\n1: (a)\n",
    ),
    (
        b"(literalize a)(make a)(remove 257)(wm)",
        b"refused 8 memory - -\n1: (a)\n",
    ),
    (
        b"(literalize a)(make a)(remove 16777217)(wm)",
        b"refused 8 memory - -\n1: (a)\n",
    ),
    (b"(literalize a)(make a)(remove +001.)(wm)", b""),
    (
        b"(literalize a)(make a)(remove 1)(remove 1)",
        b"refused 8 memory - -\n",
    ),
    (b"(literalize a)(make a)(remove 1)(make a)(wm)", b"2: (a)\n"),
    (
        b"(literalize a)(make a)(make a)(make a)(remove 2)(make a)(wm)",
        b"1: (a)\n3: (a)\n4: (a)\n",
    ),
    (b"(remove *)(wm)(remove *)", b""),
    (
        b"(literalize a)(make a)(make a)(remove *)(wm)(make a)(wm)",
        b"3: (a)\n",
    ),
    (
        b"(literalize a)(make a)(remove *)(remove 1)",
        b"refused 8 memory - -\n",
    ),
    (b"(remove)", b"refused 2 reader 7\n"),
    (b"(remove a)", b"refused 2 reader 8\n"),
    (b"(remove **)", b"refused 2 reader 8\n"),
    (b"(remove 1 2)", b"refused 2 reader 10\n"),
    (b"(remove ^1)", b"refused 2 reader 8\n"),
    (b"(remove 2147483648)", b"refused 1 reader 8\n"),
    // The class that was named first comes first, then the oldest element.
    (
        b"(literalize a b)(literalize c)(literalize b)(make c)(make b)(make a)(make c)(make a)(wm)",
        b"3: (a)\n5: (a)\n2: (b)\n1: (c)\n4: (c)\n",
    ),
    (
        b"(literalize z)(literalize nil)(literalize y)(make y)(make z)(make nil)(wm)",
        b"3: (nil)\n2: (z)\n1: (y)\n",
    ),
    (
        b"(literalize b)(literalize a)(make a)(make b)(wm)(wm)",
        b"2: (b)\n1: (a)\n2: (b)\n1: (a)\n",
    ),
    (b"(wm)", b""),
    (b"(wm 1)", b"refused 2 reader 4\n"),
];

// After `(literalize a)` and 256 times `(make a)`.
const AFTER_FULL: [Case; 7] = [
    (b"", b""),
    (b"(make a)", b"refused 11 memory - -\n"),
    (b"(make b)", b"refused 3 reader 2068\n"),
    // A refused make uses up no tag.
    (
        b"(make a)(remove 1)(make a)(remove 257)(remove 258)",
        b"refused 11 memory - -\nrefused 8 memory - -\n",
    ),
    (
        b"(remove 256)(remove 256)(make a)(make a)",
        b"refused 8 memory - -\nrefused 11 memory - -\n",
    ),
    (b"(remove *)(make a)(wm)", b"257: (a)\n"),
    (
        b"(make a)(make a)(wm 1)",
        b"refused 11 memory - -\nrefused 11 memory - -\nrefused 2 reader 2082\n",
    ),
];

const PHASES: [Case; 45] = [
    (b"", b""),
    (b" \t\r\n", b""),
    (b";", b""),
    (b"; one\n ; two\n;three", b""),
    (b"(literalize a x)", b""),
    // A declaration after a command.
    (b"(wm)(literalize a x)", b"refused 2 reader 5\n"),
    (
        b"(remove 1) ( literalize a)",
        b"refused 8 memory - -\nrefused 2 reader 13\n",
    ),
    (
        b"(literalize a)(make a)(literalize b)",
        b"refused 2 reader 23\n",
    ),
    (b"(literalize a)(wm)(literalize", b"refused 2 reader 19\n"),
    // Heads that there are not.
    (b"(p)", b"refused 2 reader 1\n"),
    (b"(p .)", b"refused 2 reader 1\n"),
    (b"(p go (row) --> (halt))", b"refused 2 reader 1\n"),
    (b"(run 1)", b"refused 2 reader 1\n"),
    (b"(cs)", b"refused 2 reader 1\n"),
    (b"(strategy lex)", b"refused 2 reader 1\n"),
    (b"(MAKE a)", b"refused 2 reader 1\n"),
    (b"(Literalize a)", b"refused 2 reader 1\n"),
    (b"(LITERALIZE a)", b"refused 2 reader 1\n"),
    (b"(Wm)", b"refused 2 reader 1\n"),
    (b"(*)", b"refused 2 reader 1\n"),
    (b"(nil)", b"refused 2 reader 1\n"),
    (b"(literaliz a)", b"refused 2 reader 1\n"),
    (b"(literalizes a)", b"refused 2 reader 1\n"),
    (b"(literalize a)(literaliz b)", b"refused 2 reader 15\n"),
    (b"(literalize a)(p)(literalize b)", b"refused 2 reader 15\n"),
    (b"()", b"refused 2 reader 1\n"),
    (b"(()", b"refused 2 reader 1\n"),
    (b"(^wm)", b"refused 2 reader 1\n"),
    (b"(7)", b"refused 2 reader 1\n"),
    (b"(", b"refused 2 reader 1\n"),
    (b" ( ; ", b"refused 2 reader 5\n"),
    // Words outside a form.
    (b")", b"refused 2 reader 0\n"),
    (b"^", b"refused 2 reader 0\n"),
    (b"7", b"refused 2 reader 0\n"),
    (b"wm", b"refused 2 reader 0\n"),
    (b" literalize a", b"refused 2 reader 1\n"),
    (b"<x>", b"refused 2 reader 0\n"),
    (b",", b"refused 1 reader 0\n"),
    (b"(wm))", b"refused 2 reader 4\n"),
    (b"(wm) x", b"refused 2 reader 5\n"),
    (b"(literalize a))", b"refused 2 reader 14\n"),
    (b"(literalize a) literalize", b"refused 2 reader 15\n"),
    (b"(literalize a).", b"refused 1 reader 14\n"),
    // What came before a refusal stands.
    (
        b"(literalize a)(make a)(wm)(remove 2)(wm)x(wm)",
        b"1: (a)\nrefused 8 memory - -\n1: (a)\nrefused 2 reader 40\n",
    ),
    // The first wrong word counts.
    (b"(literalize a x x . <x>)(p)", b"refused 3 reader 16\n"),
];

#[test]
fn makes(rt: HostRuntime) -> Result<(), Fail> {
    expect_after(&rt, b"(literalize a x)(literalize b y z)", &MAKES)
}

#[test]
fn memory(rt: HostRuntime) -> Result<(), Fail> {
    let heap = rt.alloc();
    expect_all(&rt, &MEMORY)?;
    let elements = b"(make a)".repeat(heap, 256)?;
    let full = joined(heap, b"(literalize a)", &elements)?;
    expect_after(&rt, &full, &AFTER_FULL)?;
    let listed = joined(heap, &full, b"(wm)")?;
    let lines = numbered(heap, b"_: (a)\n", 1..257)?;
    expect(&rt, &listed, &lines)
}

#[test]
fn phases(rt: HostRuntime) -> Result<(), Fail> {
    expect_all(&rt, &PHASES)
}
