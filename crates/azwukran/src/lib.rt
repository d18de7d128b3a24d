// Overload resolution, consensus, worksheets and texts for C and Rust: each answer is a struct of plain numbers, with its number and its place.
//
// Every public function ends on every input and tests it itself. It asks the function of the crates below that its promise names, and
// puts the answer's number, place and values into the struct; a mask goes into bytes that the caller lends. Nothing is kept between calls.
// The crate `azwukran_c` exports each of them to C under its own name.
#![tactic(auto)]

mod lent;
mod list_sets;
mod regular_sets;
mod single_calls;
mod texts;
mod worksheets;

pub use list_sets::{
    azwukran_list_arg_number, azwukran_list_arg_shape, azwukran_list_concrete_only,
    azwukran_list_preferred,
};
pub use regular_sets::{
    azwukran_regular_arg_number, azwukran_regular_arg_shape, azwukran_regular_concrete_only,
    azwukran_regular_preferred, azwukran_regular_rule,
};
pub use single_calls::{azwukran_call, azwukran_consensus, azwukran_rule, azwukran_survivors};
pub use texts::{azwukran_read_text, azwukran_write_text};
pub use worksheets::{azwukran_run, azwukran_type};
