// The states of a rule base: classes are declared, then rules are entered, then it is sealed. Each move uses up the
// state before it and cannot refuse, so a class cannot be declared late, and nothing can be entered into a sealed base.
// Each state has getters of its own: one type over a state could not keep what only the first does, that no rule is
// entered.
ghost use Rattle.std.specs.Prelude.{◌≡◌, []};

use crate::classes::Classes;
use crate::rules::Rules;

// How many rules a base may have.
pub const MOST_RULES: usize = 64;

// Classes are being declared. The places of the rules are reserved once.
#[derive(Drop)]
pub struct Declaring {
    classes: Classes,
    rules: Rules,
    ghost none: { rules.list ≡ [] },
}

// The classes stand, and rules are being entered.
#[derive(Drop)]
pub struct Entering {
    classes: Classes,
    rules: Rules,
}

// The base stands.
#[derive(Drop)]
pub struct Sealed {
    classes: Classes,
    rules: Rules,
}

mod declare;
mod enter;
mod read;
