// The expansion of a Regular set made by hand. It is refused exactly where document 01 says so; otherwise it takes the same steps as the
// set, and must list the same rules.

use crate::answers::is_refusal;
use crate::hand_made::{is_regular, regular_in};
use crate::parts::{first, rest};
use crate::set_answers::{accepted, listing_agrees, preferred_agrees};
use crate::steps::stepped;
use lists::{AnyOverloadSet, expand};
use regular::{ConclusionRule, Regular};

// The most rules that are written out, by document 01.
const MOST_EXPANDED: u32 = 63;

// Where Frexp and Modf have no conclusion: the constructors MAT2X2 to MAT4X4, and the scalars but F32, F16 and F64.
const MATRICES: u16 = 0b1_1111_1111_0000;

const OTHER_SCALARS: u16 = 0b1000_1111_1111;

// Whether the expansion answers as the record of its Regular set says. Where there is no set of arity 1 to 4, there is nothing to compare.
pub fn agrees(record: &[u8]) -> bool {
    match set_in(record) {
        None => true,
        Some(set) => expansion_agrees(set, rest(record)),
    }
}

// Whether the record has a Regular set of arity 1 to 4 that is expanded.
pub fn expands(record: &[u8]) -> bool {
    match set_in(record) {
        None => false,
        Some(set) => expand(set).is_ok(),
    }
}

// The record's Regular set of arity 1 to 4, if it has one.
fn set_in(record: &[u8]) -> Option<Regular> {
    let made = first(record);
    if !is_regular(made) {
        return None;
    }
    let set = regular_in(made).ok()?;
    if set.arity == 0 {
        return None;
    }
    Some(set)
}

// Whether the expansion, after the steps, answers as the parts say, or is refused as it should be.
fn expansion_agrees(set: Regular, parts: &[u8]) -> bool {
    let number = number_of(set);
    match expand(set) {
        Err(why) => is_refusal(why, number, 0),
        Ok(list) => {
            number == 0
                && match stepped(AnyOverloadSet::from_list(list), first(parts)) {
                    Err(_) => false,
                    Ok(reached) => answers_agree(reached, rest(parts)),
                }
        }
    }
}

// Whether the listing is the stored one and, where the crate prefers a rule, that one too.
fn answers_agree(set: AnyOverloadSet, parts: &[u8]) -> bool {
    let counts = rest(parts);
    let preferred = first(rest(counts));
    listing_agrees(set, first(parts)) && (!accepted(preferred) || preferred_agrees(set, preferred))
}

// The number of the expansion by document 01: 3 for more than 63 rules, then 13 where a rule has no conclusion, otherwise 0.
fn number_of(set: Regular) -> u8 {
    let constructors = set.constructors.0;
    let scalars = set.scalars.0;
    if too_many(constructors, scalars) {
        return 3;
    }
    match set.conclude {
        ConclusionRule::Frexp | ConclusionRule::Modf if inconclusive(constructors, scalars) => 13,
        _ => 0,
    }
}

// Whether there are more than 63 rules, one for each constructor over each scalar.
fn too_many(constructors: u16, scalars: u16) -> bool {
    let rows = u16::count_ones(constructors);
    let row = u16::count_ones(scalars);
    rows != 0 && MOST_EXPANDED / rows < row
}

// Whether a rule of Frexp or Modf among these has no conclusion.
fn inconclusive(constructors: u16, scalars: u16) -> bool {
    constructors != 0
        && scalars != 0
        && (constructors & MATRICES != 0 || scalars & OTHER_SCALARS != 0)
}
