// Conversion of a scalar. A record is the scalar, and the two bytes of the mask of those that it converts to.

use crate::records::word;
use scalars::{Scalar, ScalarSet};
use types::automatically_converts_to;

// Whether the mask is the stored one, and the single conversions say the same.
pub fn agrees(record: &[u8]) -> bool {
    let &[from, _, _] = record else {
        return false;
    };
    let stored = word(record, 1);
    let set = ScalarSet::convertible_from(Scalar(from));
    usize::from(set.0) == stored && each_agrees(from, stored)
}

// Whether the scalar converts to exactly those that the mask holds, asked one by one; an unknown one converts to none.
fn each_agrees(from: u8, mask: usize) -> bool {
    for to in 0..Scalar::COUNT {
        let converts = automatically_converts_to(Scalar(from), Scalar(to)).unwrap_or(false);
        if converts != ((mask >> to) % 2 == 1) {
            return false;
        }
    }
    true
}
