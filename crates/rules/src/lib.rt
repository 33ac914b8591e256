// The rule base: declared classes, rules, and the three states that a base goes through.
#![tactic(auto)]

pub mod action;
pub mod base;
pub mod class;
pub mod classes;
pub mod condition;
pub mod conditions;
pub mod place;
pub mod refusal;
pub mod rule;
mod rules;
pub mod size;
pub mod specificity;
