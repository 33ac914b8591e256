// An element of working memory.
ghost use Rattle.std.specs.Prelude.{◌≡◌, length};

use crate::value::Value;

// How many values an element has.
pub const FIELDS: usize = 16;

// An array, since every element has all sixteen. Field 0 is the class; the attribute at a place of the class's
// declaration, counted from 1, has the field of that number.
#[derive(Clone, Copy)]
pub struct Element {
    fields: [Value; FIELDS],
    ghost sixteen: { length fields ≡ 16 },
}

mod methods;
