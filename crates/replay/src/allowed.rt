// The types that an argument of a function may have. A record is the function, the argument's index, and the stored answer.

use crate::set_answers::allowed_agrees;
use calls::full_list;
use functions::{FunctionSet, function_set};
use lists::AnyOverloadSet;
use scalars::Refusal;

// Whether the types that the function's full set allows there are the stored ones.
pub fn agrees(record: &[u8]) -> bool {
    let [function, i, stored @ ..] = record else {
        return false;
    };
    match set_of(*function) {
        Err(_) => false,
        Ok(set) => allowed_agrees(set, usize::from(*i), stored),
    }
}

// The function's full set, tested.
fn set_of(function: u8) -> Result<AnyOverloadSet, Refusal> {
    match function_set(function) {
        FunctionSet::Regular(set) => AnyOverloadSet::from_regular(set),
        FunctionSet::List(listed) => AnyOverloadSet::from_list(full_list(listed)),
    }
}
