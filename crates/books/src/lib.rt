//! Books of patterns: what a book means, the contracts that every make of book meets, and the book that only reads.
#![tactic(auto)]

pub mod book;
pub mod full;
pub mod sealed;
