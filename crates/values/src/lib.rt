// Values, elements and the names of symbols.
#![tactic(auto)]

pub mod element;
pub mod name;
pub mod names;
pub mod value;
