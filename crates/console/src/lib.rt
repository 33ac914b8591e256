// A session: what a text does to working memory, and what it prints.
#![tactic(auto)]

mod commands;
mod lines;
mod listing;
mod page;
pub mod run;
