// Regular sets of rules: naga's `src/proc/overloads/regular.rs`, above the crate `rules`. Every public function ends on every input and
// tests it itself, but for the bare steps that docs/DECISIONS.md lists.
#![tactic(auto)]

mod regular;

pub use regular::{ConclusionRule, Regular};
