//! The spelling tree: values at spellings, over lent cells.
#![tactic(auto)]

pub mod cell;
mod clear;
mod descend;
mod grow;
mod hold;
pub mod joining;
pub mod linked;
mod order;
pub mod rows;
mod search;
pub mod standing;
pub mod tree;
