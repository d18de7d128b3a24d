// A call of one of the 79 functions: what its set answers. Document 01's order: the function is tested, each operand in turn, the number
// of operands, each argument in turn, then the concrete-only step, then the preferred rule. The operands come as their types and, beside
// them, their marks; one that is measured asks for the concrete-only step as the switch does.

ghost use Rattle.std.specs.Prelude.{◌≡◌, [], length};
ghost use Rattle.functions.specs.Functions.{function_count, listing_of};
ghost use Rattle.calls.specs.Choice.{resolve};
ghost use Rattle.calls.specs.OutcomePaper.{outcome_paper};
ghost use Rattle.calls.specs.CallPaper.{call_paper};
ghost use Rattle.calls.specs.private.Found.{found_paper, in_order};
ghost use Rattle.calls.specs.SurvivorsPaper.{survivors_paper};
ghost use Rattle.calls.specs.Call.{answered, if_operands, if_call_known, call_of, survivors_of_call};

use crate::function_list::{full_list, rules_of};
use crate::list_call::{FullList, members};
use crate::outcome::{Called, NoRule};
use crate::regular_call::FullSet;
use functions::{FUNCTION_COUNT, FunctionSet, function_set};
use lists::{Chosen, RuleSet};
use scalars::Refusal;
use types::{LAST_CODE, MEASURED, Operand, concrete_only};

// The rule that a call of the function with these operands means, with its index in the function's full listing, and whether the result is
// measured. Refused 7 at 0 for the function; 8 at the shorter length where there is not a mark for each type; at 1 + index 7 for a type or
// a mark, 17 for a measured abstract operand; 5 for the number of operands; 6 at 1 + index for the operand of whose shape no rule is left,
// 16 for the one whose number none of those takes; 1 where the concrete-only step leaves none.
pub fn call_of(function: u8, types: &[u8], marks: &[u8], switch: bool) -> Result<Called, Refusal>
    ensures { call_paper result ≡ call_of function_count listing_of switch function types.now marks.now }
{
    let measured = tested(function, types, marks)?;
    let chosen = outcome_of(function, types, concrete_only(switch, measured))?;
    Ok(Called { chosen, measured })
}

// What a call comes to, without a test of the function and the operands' types: an unknown function has no rules, and no rule takes an
// unknown type. Whoever asks says whether rules with an abstract argument are dropped.
pub fn outcome_of(function: u8, operands: &[u8], concrete: bool) -> Result<Chosen, NoRule>
    ensures { outcome_paper result ≡ answered (resolve concrete (listing_of function) operands.now) }
{
    match function_set(function) {
        FunctionSet::Regular(set) => FullSet { set }.call(operands, concrete),
        FunctionSet::List(listed) => {
            let full = FullList {
                list: full_list(listed),
            };
            full.call(operands, concrete)
        }
    }
}

// The rules of the function's full listing that survive the call: bit k says that rule k is one. Refused as `call_of` is.
pub fn survivors_of(
    function: u8,
    types: &[u8],
    marks: &[u8],
    switch: bool,
) -> Result<RuleSet, Refusal>
    ensures { survivors_paper result ≡ survivors_of_call function_count listing_of switch function types.now marks.now }
{
    let measured = tested(function, types, marks)?;
    let concrete = concrete_only(switch, measured);
    let full = FullList {
        list: rules_of(function),
    };
    members(full.stepped(types, concrete)?)
}

// Whether an operand is measured, where the function is known, there is a mark for each type, and each operand passes its test.
fn tested(function: u8, types: &[u8], marks: &[u8]) -> Result<bool, Refusal>
    ensures { found_paper result ≡ if_call_known function_count function types.now marks.now [] (in_order marks.now) }
{
    if FUNCTION_COUNT <= function {
        return Err(Refusal::Unknown(0));
    }
    if types.len() < marks.len() {
        return Err(Refusal::IllFormed(types.len()));
    }
    if marks.len() < types.len() {
        return Err(Refusal::IllFormed(marks.len()));
    }
    operands_tested(types, marks)
}

// Whether an operand is measured, where each operand's type and mark are known and none is measured and abstract. Types and marks are two
// arrays, as the C interface lends them; one index serves both, since a refusal's place needs it.
fn operands_tested(types: &[u8], marks: &[u8]) -> Result<bool, Refusal>
    requires { length types.now ≡ length marks.now }
    ensures { found_paper result ≡ if_operands 0 types.now marks.now [] (in_order marks.now) }
{
    let mut measured = false;
    for (i, code) in types.iter().enumerate() {
        let mark = marks[i];
        if LAST_CODE < *code || MEASURED < mark {
            return Err(Refusal::Unknown(1 + i));
        }
        let operand = Operand::of(*code, mark);
        if operand.is_measured_abstract() {
            return Err(Refusal::MeasuredAbstract(1 + i));
        }
        measured = measured || operand.measured;
    }
    Ok(measured)
}
