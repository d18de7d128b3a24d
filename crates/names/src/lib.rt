// The names of types and functions as byte strings: the name of a word, and the word that a run of bytes is. And the word `measured`, which
// is neither.
#![tactic(auto)]

mod index;
mod measured;
mod names;

pub use index::{INDEX_LENGTH, Word, built_in_index, word_of};
pub use measured::{is_measured, measured_name};
pub use names::{NAMES_LENGTH, TYPE_COUNT, WORD_COUNT, built_in_names, spelling};
