// Consensus of several components. A record is the base, the number of the answer, its scalar or its place, who gave the scalar, 0 the
// base or 1 a component, the two bytes of that component's number, and the components.

use crate::answers::{NONE, is_refusal};
use crate::records::word;
use scalars::Scalar;
use types::automatic_conversion_consensus;

// Whether the scalar and its giver, or the refusal, are the stored ones.
pub fn agrees(record: &[u8]) -> bool {
    let &[base, number, value, kind, _, _, ..] = record else {
        return false;
    };
    match automatic_conversion_consensus(base_of(base), &record[6..]) {
        Ok(agreed) => {
            number == 0
                && agreed.scalar.0 == value
                && is_giver(agreed.component, kind, word(record, 4))
        }
        Err(why) => is_refusal(why, number, usize::from(value)),
    }
}

// Whether the giver is of this kind, and a component has this number.
fn is_giver(component: Option<usize>, kind: u8, stored: usize) -> bool {
    match component {
        None => kind == 0 && stored == usize::from(NONE),
        Some(k) => kind == 1 && stored == k,
    }
}

// The stored base, or none: a byte of the record.
fn base_of(base: u8) -> Option<Scalar> {
    if base == NONE {
        return None;
    }
    Some(Scalar(base))
}
