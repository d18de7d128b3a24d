// The 79 built-in functions by number: each function's overload set, and the rules of its full listing. naga's
// `src/proc/overloads/mathfunction.rs` and `utils.rs`, above the crate `regular`.
//
// Beside `mathfunction` stand `listed_rules`, the rules of the functions that have a List; `full_listing`, a rule by its index; and
// `totals`, how many there are. Every public function ends on every input: a number that is no function's is refused, or has no rules.
#![tactic(auto)]

mod full_listing;
mod listed_rules;
mod mathfunction;
mod totals;
mod utils;

pub use full_listing::rule_at;
pub use listed_rules::{ListFunction, listed_rule, rule_count};
pub use mathfunction::{FUNCTION_COUNT, FunctionSet, function_set};
pub use totals::rule_total;
