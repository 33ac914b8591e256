// The name of a symbol.
ghost use Rattle.std.specs.Prelude.{◌≤◌, length};
ghost use Rattle.rows.specs.Shorts.{bytes_of};

use rows::short::Short;

// How many bytes a name may have.
pub const LONGEST_NAME: usize = 24;

// 1 to 24 bytes.
#[derive(Clone, Copy)]
pub struct Name {
    bytes: Short<LONGEST_NAME>,
    ghost some: { 1 ≤ length (bytes_of bytes) },
}

mod methods;
