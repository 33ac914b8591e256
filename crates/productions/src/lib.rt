// Reads productions: a call takes one, or answers that none comes next, or refuses.
#![tactic(auto)]

mod actions;
mod conditions;
mod draft;
mod heads;
pub mod read;
mod state;
mod tests;
pub mod trouble;
mod turns;
mod variables;
