// The words of a rule text.
#![tactic(auto)]

mod bytes;
mod kinds;
mod numbers;
pub mod text;
pub mod token;
