// Lists of rules, and sets of either kind: naga's `src/proc/overloads/list.rs` and `any_overload_set.rs`, above the crates `rules` and
// `regular`.
//
// Beside `list` stand `walks` and `tested`, the loops over a List's members, and `expansion`, a Regular set as a List. Every public function
// ends on every input and tests it itself, but for the bare walks that docs/DECISIONS.md lists.
#![tactic(auto)]

mod any_overload_set;
mod expansion;
mod list;
mod tested;
mod walks;

pub use any_overload_set::AnyOverloadSet;
pub use expansion::expand;
pub use list::{Chosen, List, MOST_RULES};
pub use walks::{BothSteps, RuleSet, filter, filter_both, longest};
