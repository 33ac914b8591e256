// The words of the rule language. A word that has bytes of its own borrows them from the text.

ghost use Rattle.std.specs.Prelude.{◌≡◌};
ghost use Rattle.words.specs.Kinds.{predicate};

#[derive(Clone, Copy, PartialEq, Eq, Debug)]
pub enum Predicate {
    Equal,
    Unequal,
    Less,
    AtMost,
    Greater,
    AtLeast,
    SameKind,
}

impl Predicate {
    // The bytes that spell it.
    pub fn bytes(self) -> &'static [u8]
        ensures { result.now ≡ predicate self }
    {
        match self {
            Predicate::Equal => b"=",
            Predicate::Unequal => b"<>",
            Predicate::Less => b"<",
            Predicate::AtMost => b"<=",
            Predicate::Greater => b">",
            Predicate::AtLeast => b">=",
            Predicate::SameKind => b"<=>",
        }
    }
}

#[derive(Clone, Copy, PartialEq, Eq, Debug)]
pub enum Token<'a> {
    Open,
    Close,
    Hat,
    Minus,
    Arrow,
    OpenChoice,
    CloseChoice,
    Test(Predicate),
    Number(i32, &'a [u8]),
    Variable(&'a [u8]),
    Symbol(&'a [u8]),
    Illegal(&'a [u8]),
}

// A word, and the place of its first byte in the text.
#[derive(Clone, Copy, PartialEq, Eq, Debug)]
pub struct Word<'a> {
    pub token: Token<'a>,
    pub place: usize,
}
