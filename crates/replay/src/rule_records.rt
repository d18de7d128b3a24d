// A type rule as a record holds it: its four arguments, 255 for one that is not there, then how many there are, and its result.

use c_sets::RULE_BYTES;
use rules::Rule;

// The rule in the bytes; the record of no rule where they are not as many. The one in `c_sets` reads the array of a whole List.
pub fn rule_in(bytes: &[u8]) -> Rule {
    let &[a0, a1, a2, a3, count, result] = bytes else {
        return Rule::BLANK;
    };
    Rule {
        a0,
        a1,
        a2,
        a3,
        count,
        result,
    }
}

// Whether the rules are those that stand in the bytes, and no others do.
pub fn rules_agree(rules: &[Rule], bytes: &[u8]) -> bool {
    bytes.len() % RULE_BYTES == 0
        && bytes.len() / RULE_BYTES == rules.len()
        && bytes
            .chunks(RULE_BYTES)
            .zip(rules)
            .all(|(stored, rule)| *rule == rule_in(stored))
}
