// The sets that have names. A record is the number of the name, in the order below, and the two bytes of the mask.

use crate::records::word;
use scalars::ScalarSet;
use types::ConstructorSet;

// Whether the set of that name has the stored mask.
pub fn agrees(record: &[u8]) -> bool {
    let &[name, _, _] = record else {
        return false;
    };
    match mask_of(name) {
        None => false,
        Some(mask) => usize::from(mask) == word(record, 1),
    }
}

// The mask of the set with this number.
fn mask_of(name: u8) -> Option<u16> {
    let named = ScalarSet::named();
    match name {
        0 => Some(named.float.0),
        1 => Some(named.integer.0),
        2 => Some(named.numeric.0),
        3 => Some(named.abstracts.0),
        4 => Some(named.concrete.0),
        5 => Some(named.concrete_integer.0),
        6 => Some(named.concrete_float.0),
        7 => Some(named.float_abstract_unimplemented.0),
        8 => Some(ConstructorSet::vecn().0),
        _ => None,
    }
}
