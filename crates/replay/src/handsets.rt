// Sets made by hand, after a few steps. A record is ten parts: the set, the steps, then the crate's answers, which are the listing, the
// counts, the preferred rule, and the types allowed at the arguments 0 to 4.

use crate::agreement;
use crate::hand_made::made;
use crate::parts::{first, rest};
use crate::set_answers::{allowed_agrees, counts_agree, listing_agrees, preferred_agrees};
use crate::steps::stepped;
use lists::AnyOverloadSet;

// The arguments whose allowed types are stored are those below this one.
const ARGUMENTS: usize = 5;

// Whether the set answers everything as stored, and so does its expansion.
pub fn agrees(record: &[u8]) -> bool {
    let then = rest(record);
    let steps = first(then);
    if steps.len() % 2 != 0 {
        return false;
    }
    match stepped(made(first(record)), steps) {
        Err(_) => false,
        Ok(set) => answers_agree(set, rest(then)) && agreement::agrees(record),
    }
}

// Whether the set's answers are those of the parts.
fn answers_agree(set: AnyOverloadSet, parts: &[u8]) -> bool {
    let counts = rest(parts);
    let preferred = rest(counts);
    listing_agrees(set, first(parts))
        && counts_agree(set, first(counts))
        && preferred_agrees(set, first(preferred))
        && all_allowed_agree(set, rest(preferred))
}

// Whether the types allowed at each argument are those of the parts, and nothing follows.
fn all_allowed_agree(set: AnyOverloadSet, parts: &[u8]) -> bool {
    let mut left = parts;
    for i in 0..ARGUMENTS {
        if !allowed_agrees(set, i, first(left)) {
            return false;
        }
        left = rest(left);
    }
    left.is_empty()
}
