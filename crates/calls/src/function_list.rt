// A function's rules as a List, in order, all of them members: of a function that lists its rules, and of any.

ghost use Rattle.std.specs.Prelude.{◌≡◌};
ghost use Rattle.lists.specs.Expansion.{list_of};
ghost use Rattle.functions.specs.ListedRules.{listed_rules};
ghost use Rattle.functions.specs.Functions.{listing_of};

use functions::{FunctionSet, ListFunction, function_set, listed_rule, rule_count};
use lists::{List, MOST_RULES, expand};
use rules::Rule;

// The List of a function that lists its rules. They are written into the array that a List has in place of a vector: nothing is on a heap.
pub fn full_list(listed: ListFunction) -> List
    ensures { result ≡ list_of (listed_rules listed) }
{
    let n = rule_count(listed);
    let mut rules = [Rule::BLANK; MOST_RULES];
    for k in 0..n {
        rules[usize::from(k)] = listed_rule(listed, k);
    }
    List {
        rules,
        len: usize::from(n),
        members: (1u64 << n) - 1,
    }
}

// The List of any function's rules; an unknown function has none. The set of each function expands.
pub(crate) fn rules_of(function: u8) -> List
    ensures { result ≡ list_of (listing_of function) }
{
    match function_set(function) {
        FunctionSet::Regular(set) => expand(set).unwrap(),
        FunctionSet::List(listed) => full_list(listed),
    }
}
