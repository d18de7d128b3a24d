// Worksheets, lines of four bytes, and the strict machine that runs them.
#![tactic(auto)]

mod line;
mod machine;
mod stack;

pub use line::{CALL_LINE, CONVERSION_LINE, LEAF_LINE, SPARE};
pub use machine::{Ended, Stopped, run_worksheet};
