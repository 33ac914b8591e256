// The names of all symbols, numbered by first use.
ghost use Rattle.std.specs.Prelude.{◌≡◌, ◌≤◌, [], length, map, codes, slice_index_or};
ghost use Rattle.values.specs.Spelling.{spelling, Distinct};

use crate::name::Name;
use rows::few::Few;

// How many symbols there may be.
pub const MOST_NAMES: usize = 256;

// At most 256 names, of which no two are alike; number 0 is `nil`.
#[derive(Drop)]
pub struct Names {
    list: Few<Name, MOST_NAMES>,
    ghost few: { length list ≤ 256 },
    ghost nil: { slice_index_or (map spelling list) 0 [] ≡ codes "nil" },
    ghost distinct: { Distinct (map spelling list) },
}

mod methods;
