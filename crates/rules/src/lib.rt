// Type rules: naga's `src/proc/overloads/rule.rs`, above the crate `types`. Beside it stands `listing`, what a set of either kind
// lists. Every public function ends on every input and tests it itself, but for the bare tests of a rule that docs/DECISIONS.md lists.
#![tactic(auto)]

mod listing;
mod rule;

pub use listing::{AllowedArgs, LONGEST_LISTING, Listing, no_codes, no_rules};
pub use rule::{Keep, MOST_ARGUMENTS, Part, Predeclared, Rule, for_frexp_modf, reaches};
