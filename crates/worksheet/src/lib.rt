// The typer: the type of an expression and its worksheet, by the first pass of the crate `expressions` and the single calls of the
// crate `calls`. The strict machine that runs the worksheet stands in the crate `machine`.
#![tactic(auto)]

mod one_call;
mod sheet;
mod stack;
mod typer;

pub use sheet::ENOUGH_BYTES;
pub use typer::{Typed, type_expression};
