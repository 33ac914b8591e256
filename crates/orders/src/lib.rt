// Orders: what stands above what, which of a row stands highest, and a row from the highest to the lowest.
#![tactic(auto)]

pub mod choose;
pub mod listing;
pub mod order;
pub mod ranking;
