// Combination of two scalars. A record is the two, what they combine to, and the side that gave it: 0 the left, 1 the right.

use crate::answers::NONE;
use scalars::Scalar;
use types::automatic_conversion_combine;

// Whether the combination is the stored one, and so is its side.
pub fn agrees(record: &[u8]) -> bool {
    let &[a, b, stored, given] = record else {
        return false;
    };
    match automatic_conversion_combine(Scalar(a), Scalar(b)) {
        Ok(Some((scalar, side))) => scalar.0 == stored && side as u8 == given,
        Ok(None) => stored == NONE && given == NONE,
        Err(_) => false,
    }
}
