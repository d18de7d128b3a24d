// Constructors and type codes by their numbers, sets of constructors as masks, which scalar converts to which, and consensus: naga's
// `src/proc/overloads/constructor_set.rs`, the conversions of scalars of `type_methods.rs` and the front end's consensus, above the
// crate `scalars`. Beside them stand `type_code`, `operand` and `marks`. Every public function ends on every input and tests it itself.
#![tactic(auto)]

mod constructor_set;
mod conversion;
mod marks;
mod operand;
mod type_code;

pub use constructor_set::{Constructor, ConstructorSet, ConstructorSize};
pub use conversion::{
    Consensus, Side, automatic_conversion_combine, automatic_conversion_consensus,
    automatically_converts_to,
};
pub use marks::any_measured;
pub use operand::{CONSTANT, MEASURED, Operand, concrete_only};
pub use type_code::{LAST_CODE, TypeParts, VALUES, code_of, is_abstract, leaf_scalar};
