// The declared classes of a rule base.
ghost use Rattle.std.specs.Prelude.{◌≤◌, length};

use crate::class::Class;
use rows::few::Few;

// How many classes a base may have.
pub const MOST_CLASSES: usize = 16;

// At most 16 classes, in the order of their declaration.
#[derive(Drop)]
pub struct Classes {
    list: Few<Class, MOST_CLASSES>,
    ghost few: { length list ≤ 16 },
}

mod methods;
