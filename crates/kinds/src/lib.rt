//! The kinds of the positions of a word under a book, by the maximum rule.
#![tactic(auto)]

pub mod gaps;
pub mod given;
pub mod kind;
pub mod values;
