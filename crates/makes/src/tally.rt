//! The type of a tally.
use crate::counts::Counts;
use tree::standing::Standing;

/// Counts at spellings, over lent cells: at a spelling they are joined by adding each up to the ceiling.
pub type Tally<'a> = Standing<'a, Counts>;
