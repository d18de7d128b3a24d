// The steps that a record takes on its set, two bytes each: an argument's index and its type, or 255 twice for the step that drops
// rules with an abstract argument. The crate's one step of an argument is a pair here, by its shape and then by its number.

use crate::answers::NONE;
use lists::AnyOverloadSet;
use rules::Part;
use scalars::Refusal;

// The set after all steps, or the first refusal.
pub fn stepped(
    start: Result<AnyOverloadSet, Refusal>,
    steps: &[u8],
) -> Result<AnyOverloadSet, Refusal> {
    let mut here = start?;
    for step in steps.chunks(2) {
        here = taken(here, step)?;
    }
    Ok(here)
}

// The answer to one step; half a step changes nothing.
fn taken(set: AnyOverloadSet, step: &[u8]) -> Result<AnyOverloadSet, Refusal> {
    let &[index, code] = step else {
        return Ok(set);
    };
    if index == NONE && code == NONE {
        return set.concrete_only();
    }
    let i = usize::from(index);
    set.arg(Part::Shape, i, code)?.arg(Part::Number, i, code)
}
