// Overload resolution: single calls of the built-in functions, above the crates `lists` and `functions`.
//
// `function_list` has the List of a function; `regular_call`, `list_call` and `function_call` do what naga's front end does with a set;
// `outcome` is what a call comes to, for a caller that says where it stands. Every public function ends on every input and tests it
// itself, but for `outcome_of`, whose caller has tested the function and the types.
#![tactic(auto)]

mod function_call;
mod function_list;
mod list_call;
mod outcome;
mod regular_call;

pub use function_call::{call_of, outcome_of, survivors_of};
pub use function_list::full_list;
pub use outcome::{Called, NoRule, none_left};
