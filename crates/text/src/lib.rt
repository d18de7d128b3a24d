// Calls as text: an expression read from its text, and written as one.
//
// A text is a type's name, a function's name and its arguments in brackets, or `measured` and a type's name:
// `clamp(abstract-int, measured u32, abstract-int)`. The names come from the crate `names`, the expression's bytes are those of the crate
// `expressions`.
#![tactic(auto)]

mod lent;
mod read;
mod reader;
mod source;
mod strip;
mod token;
mod write;
mod writer;

pub use read::{MOST_BYTES, read_text};
pub use token::Token;
pub use write::write_text;
