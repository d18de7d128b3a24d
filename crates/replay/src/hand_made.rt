// A set made by hand, as a record holds it: 0, then a Regular set's arity, the two masks of two bytes each and the conclusion; or 1,
// then the rules of a List.

use crate::records::word;
use c_sets::{RULE_BYTES, RegularParts, rules_in};
use lists::{AnyOverloadSet, List};
use regular::{ConclusionRule, Regular};
use scalars::{Refusal, ScalarSet};
use types::ConstructorSet;

// Whether the bytes have a Regular set's form.
pub fn is_regular(bytes: &[u8]) -> bool {
    match bytes {
        [0, _, _, _, _, _, conclusion] => ConclusionRule::try_from(*conclusion).is_ok(),
        _ => false,
    }
}

// The set, or its refusal; 8 for bytes of another form.
pub fn made(bytes: &[u8]) -> Result<AnyOverloadSet, Refusal> {
    if is_regular(bytes) {
        return AnyOverloadSet::from_regular(regular_in(bytes)?);
    }
    let [1, rules @ ..] = bytes else {
        return Err(Refusal::IllFormed(0));
    };
    if rules.len() % RULE_BYTES != 0 {
        return Err(Refusal::IllFormed(0));
    }
    AnyOverloadSet::from_list(list_in(rules)?)
}

// The Regular set, or its refusal; 8 where the bytes are not as many.
pub fn regular_in(bytes: &[u8]) -> Result<Regular, Refusal> {
    let &[_, arity, _, _, _, _, conclusion] = bytes else {
        return Err(Refusal::IllFormed(0));
    };
    let parts = RegularParts {
        arity,
        constructors: ConstructorSet(word(bytes, 2) as u16),
        scalars: ScalarSet(word(bytes, 4) as u16),
        conclusion,
    };
    parts.set()
}

// The List of rules that stand one behind another, all of them members.
pub fn list_in(bytes: &[u8]) -> Result<List, Refusal> {
    List::from_rules(rules_in(bytes), bytes.len() / RULE_BYTES)
}
