// Calls of the functions. A record is the function, the concrete-only switch, the eight bytes of the mask of the rules that survive, the
// index of the preferred one, its result, the result's mark, then the types of the operands as a part, and behind it their marks.

use crate::parts::{first, rest};
use calls::{Called, call_of, survivors_of};
use functions::rule_at;

// The operands' types start here.
const OPERANDS: usize = 13;

// Whether the rules that survive, and the one that is chosen, are the stored ones.
pub fn agrees(record: &[u8]) -> bool {
    let &[
        function,
        switch,
        b0,
        b1,
        b2,
        b3,
        b4,
        b5,
        b6,
        b7,
        index,
        result,
        mark,
        ..
    ] = record
    else {
        return false;
    };
    if 1 < switch || 1 < mark {
        return false;
    }
    let types = first(&record[OPERANDS..]);
    let marks = rest(&record[OPERANDS..]);
    let Ok(survivors) = survivors_of(function, types, marks, switch == 1) else {
        return false;
    };
    let Ok(called) = call_of(function, types, marks, switch == 1) else {
        return false;
    };
    survivors.0 == u64::from_le_bytes([b0, b1, b2, b3, b4, b5, b6, b7])
        && called.measured == (mark == 1)
        && called.chosen.index == index
        && called.chosen.rule.result == result
        && is_listed(function, called)
}

// Whether the chosen rule is the one at its index of the function's full listing.
fn is_listed(function: u8, called: Called) -> bool {
    match rule_at(function, called.chosen.index) {
        Err(_) => false,
        Ok(listed) => called.chosen.rule == listed,
    }
}
