// A memory over places that somebody lends.
ghost use Rattle.std.specs.Prelude.{◌≤◌, length};

use crate::fact::Fact;

// The pairs stand in the first `count` places, which somebody lends: a memory allocates nothing.
#[derive(Drop)]
pub struct PlainMemory<'a> {
    places: &'a mut [Fact],
    count: usize,
    last: u32,
    ghost lent: { count ≤ length places.now },
    ghost few: { count ≤ 256 },
}

mod methods;
