// Rows of at most N things.
#![tactic(auto)]

pub mod few;
pub mod short;
#[cfg(test)]
mod tests;
