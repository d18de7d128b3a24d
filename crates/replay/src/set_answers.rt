// What a set answers, against what is stored of it. A stored answer is its number, and behind a 0 what was answered. Each kind of answer is
// compared by a `match` of its own: one function over closures would be no shorter.

use crate::answers::is_refusal;
use crate::rule_records::{rule_in, rules_agree};
use c_sets::RULE_BYTES;
use lists::AnyOverloadSet;
use scalars::Refusal;

// Whether the stored answer is an acceptance.
pub fn accepted(stored: &[u8]) -> bool {
    match stored {
        [0, ..] => true,
        _ => false,
    }
}

// Whether the stored answer is this refusal at this place.
fn refused(why: Refusal, stored: &[u8], place: usize) -> bool {
    match stored {
        [number] => is_refusal(why, *number, place),
        _ => false,
    }
}

// Whether the rules are the stored ones, in their order.
pub fn listing_agrees(set: AnyOverloadSet, stored: &[u8]) -> bool {
    match set.overload_list() {
        Err(why) => refused(why, stored, 0),
        Ok(listing) => match (stored, listing.rules.get(..usize::from(listing.count))) {
            ([0, rules @ ..], Some(listed)) => rules_agree(listed, rules),
            _ => false,
        },
    }
}

// Whether the least and the most arguments are the stored ones.
pub fn counts_agree(set: AnyOverloadSet, stored: &[u8]) -> bool {
    match (set.min_arguments(), set.max_arguments()) {
        (Ok(least), Ok(most)) => stored == [0, least, most].as_slice(),
        (Err(least), Err(most)) => refused(least, stored, 0) && refused(most, stored, 0),
        _ => false,
    }
}

// Whether the preferred rule is the stored one.
pub fn preferred_agrees(set: AnyOverloadSet, stored: &[u8]) -> bool {
    match set.most_preferred() {
        Err(why) => refused(why, stored, 0),
        Ok(rule) => match stored {
            [0, listed @ ..] => listed.len() == RULE_BYTES && rule == rule_in(listed),
            _ => false,
        },
    }
}

// Whether the types allowed at an argument are the stored ones, in their order.
pub fn allowed_agrees(set: AnyOverloadSet, i: usize, stored: &[u8]) -> bool {
    match set.allowed_args(i) {
        Err(why) => refused(why, stored, i),
        Ok(allowed) => match (stored, allowed.codes.get(..usize::from(allowed.count))) {
            ([0, codes @ ..], Some(listed)) => listed == codes,
            _ => false,
        },
    }
}
