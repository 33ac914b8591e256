// Reads the forms of a text: each call takes one form of its phase, or answers that none of them comes next, or
// refuses.
#![tactic(auto)]

pub mod form;
pub mod read;
mod state;
mod turns;
