//! Words with their hyphens, and how a line of a word list is read.
#![tactic(auto)]

pub mod line;
pub mod measure;
pub mod refusals;
pub mod row;
pub mod word;
