// The twelve scalars and sets of them, walks over set bits, and the refusals: naga's `src/proc/overloads/one_bits_iter.rs` and
// `scalar_set.rs`. Every public function ends on every input and tests it itself.
#![tactic(auto)]

mod one_bits_iter;
mod refusal;
mod scalar_set;

pub use one_bits_iter::{BitNumber, Members, OneBit, OneBitsIter, members_of, members_within};
pub use refusal::{Refusal, UNUSED};
pub use scalar_set::{NamedSets, Scalar, ScalarSet};
