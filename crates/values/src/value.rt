// What a field of working memory holds.
ghost use Rattle.std.specs.Prelude.{◌≡◌, Decides};

// A symbol, by its number among the names, or a number. `nil` is symbol 0.
#[derive(Clone, Copy, PartialEq, Eq, Debug)]
pub enum Value {
    Symbol(u8),
    Number(i32),
}

// What an unset field holds.
pub const NIL: Value = Value::Symbol(0);

impl Value {
    // Whether the two are one value: the same kind and the same content.
    // As `==`, with a clause that says in one word that they are.
    pub fn same(self, other: Value) -> bool
        ensures { Decides result (self ≡ other) }
    {
        self == other
    }
}
