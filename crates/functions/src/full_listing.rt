// The rules of a function's full listing, by index.
//
// A worksheet names a rule by its function and its index among all rules of that function. No listing is written out for this: a
// List's rule is made from its index, and a Regular set's from the rank of its constructor and of its scalar.

ghost use Rattle.std.specs.Prelude.{◌≡◌, slice_get};
ghost use Rattle.std.specs.Option.{option_map};
ghost use Rattle.scalars.specs.Mask.{bits};
ghost use Rattle.rules.specs.RulePaper.{rule_paper};
ghost use Rattle.regular.specs.Regular.{regular_rules};
ghost use Rattle.functions.specs.Functions.{rule_in, rule_at};
ghost use Rattle.functions.specs.private.Built.{Built};

use crate::listed_rules::{listed_rule, rule_count};
use crate::mathfunction::{FUNCTION_COUNT, FunctionSet, function_set};
use regular::Regular;
use rules::Rule;
use scalars::{BitNumber, OneBit, OneBitsIter, Refusal, Scalar};
use types::Constructor;

// The rule at an index of the function's full listing. Refused 7, at 0 for an unknown function, at 1 for an unknown index.
pub fn rule_at(function: u8, index: u8) -> Result<Rule, Refusal>
    ensures { rule_paper result ≡ rule_at function index }
{
    if FUNCTION_COUNT <= function {
        return Err(Refusal::Unknown(0));
    }
    match function_set(function) {
        FunctionSet::Regular(set) => regular_rule(set, index),
        FunctionSet::List(listed) => {
            if rule_count(listed) <= index {
                return Err(Refusal::Unknown(1));
            }
            Ok(listed_rule(listed, index))
        }
    }
}

// The rule at an index of a Regular set's listing: each constructor in turn, over each scalar in turn.
fn regular_rule(set: Regular, index: u8) -> Result<Rule, Refusal>
    requires { Built set }
    ensures { rule_paper result ≡ rule_in (regular_rules set) index }
{
    let row = set.scalars.0.count_ones() as u8;
    let constructor = nth(set.constructors.0, index / row).ok_or(Refusal::Unknown(1))?;
    let scalar = nth(set.scalars.0, index % row).ok_or(Refusal::Unknown(1))?;
    set.rule_of(Constructor(constructor.0), Scalar(scalar.0))
}

// The number of the mask's n-th bit, counted from 0, if it has so many.
fn nth(mask: u16, n: u8) -> Option<BitNumber>
    ensures { option_map (λ b. b.0) result ≡ slice_get (bits 64 mask) n }
{
    OneBitsIter(u64::from(mask))
        .nth(usize::from(n))
        .map(OneBit::number)
}
