// Facts that can be read, memories that can also be written, and the plain memory.
#![tactic(auto)]

pub mod fact;
pub mod plain;
pub mod refusal;
pub mod traits;
