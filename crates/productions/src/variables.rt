// The variables of a production, in the order in which they were first met.
use rows::few::Few;
use values::name::Name;

// How many variables a production may have.
pub(crate) const MOST_VARIABLES: usize = 16;

// A variable, and where it was first met: in a negated condition or not, and in which, counted from 0. These
// stay two fields: `Met` of specs/Sofar.antt says of every variable in which condition it was first met, negated or
// not, where an Option would say it of one kind alone.
#[derive(Clone, Copy)]
pub(crate) struct Variable {
    pub name: Name,
    pub negated: bool,
    pub condition: usize,
}

// The variables that were met.
#[derive(Drop)]
pub(crate) struct Variables {
    list: Few<Variable, MOST_VARIABLES>,
}

mod methods;
