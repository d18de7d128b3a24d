// Expressions of calls as prefix bytes, and the first pass over them: well formed and within the limits, or the first fault.
#![tactic(auto)]

mod expression;

pub use expression::{CALL, DEEPEST, LAST_LEAF, LEAF, MEASURED_LEAF, MOST_NODES, read_expression};
