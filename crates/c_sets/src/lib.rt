// Sets made by hand, from the numbers and bytes that a caller hands in, and what is asked of them. Every public function ends on every
// input and tests it itself.
#![tactic(auto)]

mod list_parts;
mod regular_parts;

pub use list_parts::{ListParts, RULE_BYTES, rules_in};
pub use regular_parts::RegularParts;
