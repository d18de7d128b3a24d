// How many rules a function's full listing has.

ghost use Rattle.std.specs.Prelude.{◌≡◌};
ghost use Rattle.scalars.specs.Paper.{count_paper};
ghost use Rattle.functions.specs.RuleTotal.{rule_total};

use crate::listed_rules::rule_count;
use crate::mathfunction::{FUNCTION_COUNT, FunctionSet, function_set};
use scalars::Refusal;

// The number of rules in the function's full listing. Refused 7 at 0 for an unknown function.
pub fn rule_total(function: u8) -> Result<u8, Refusal>
    ensures { count_paper result ≡ rule_total function }
{
    if FUNCTION_COUNT <= function {
        return Err(Refusal::Unknown(0));
    }
    match function_set(function) {
        FunctionSet::Regular(set) => {
            let rows = set.constructors.0.count_ones();
            let row = set.scalars.0.count_ones();
            // The product that `expand` of `lists` has too: two counts of ones. A method of a set for them would be one more
            // public promise.
            Ok((rows * row) as u8)
        }
        FunctionSet::List(listed) => Ok(rule_count(listed)),
    }
}
