//! The type of counts.
ghost use Rattle.std.specs.Prelude.{◌≤◌};

/// How often something went well, and how often not, up to a ceiling of 4,294,967,295 each.
#[derive(Clone, Copy)]
pub struct Counts {
    pub good: u32,
    pub bad: u32,
    ghost fits: { (good ≤ 4294967295) × (bad ≤ 4294967295) },
}
