// One call in the second pass, once its operands are typed: its rule by the crate `calls`, the conversions that the rule asks for, the
// call's own line, and the result in place of the operands, measured if one of them is; or the refusal, with its place in the expression.
// The first pass has tested the function and the leaves' types, so what the call comes to is asked without a test.

ghost use Rattle.rules.specs.Rule.{arguments_of};
ghost use Rattle.machine.specs.Line.{encode, conversions};
ghost use Rattle.worksheet.specs.private.Sheet.{Wrote};
ghost use Rattle.worksheet.specs.private.SecondPass.{ConversionRoom, CallThere, CallTyped};

use crate::sheet::Sheet;
use crate::stack::Stack;
use calls::{NoRule, none_left, outcome_of};
use machine::{CALL_LINE, CONVERSION_LINE, SPARE};
use rules::Rule;
use scalars::Refusal;
use types::{Operand, any_measured, concrete_only};

// Types the call at `at`, whose operands are the last `count` on the stack. A wrong count and an empty set are refused at the call's tag,
// an operand of a wrong shape or number at its first byte.
pub(crate) fn type_call(
    function: u8,
    count: u8,
    at: usize,
    switch: bool,
    stack: &mut Stack,
    sheet: &mut Sheet,
) -> Result<(), Refusal>
    requires { CallThere count stack.old sheet.old }
    ensures { CallTyped function count at switch stack.old sheet.old result stack.new sheet.new }
{
    let n = usize::from(count);
    let from = stack.top - n;
    let operands = stack.types_on_top(n);
    let measured = any_measured(stack.marks_on_top(n));
    match outcome_of(function, operands, concrete_only(switch, measured)) {
        Ok(chosen) => {
            convert(operands, chosen.rule, sheet);
            sheet.line(CALL_LINE, function, chosen.index, count);
            let result = Operand {
                code: chosen.rule.result,
                measured,
            };
            stack.cut(n);
            stack.push(result, at);
            Ok(())
        }
        Err(NoRule::WrongCount) => Err(Refusal::WrongCount(at)),
        Err(NoRule::NoneAfter(part, k)) => Err(none_left(part, stack.starts[from + k])),
        Err(NoRule::NoneConcrete) => Err(Refusal::EmptySet(at)),
    }
}

// Writes the conversions of a call's operands to the rule's arguments, by ascending argument, only where types differ. With indices, since
// a rule's arguments are fields, and a conversion names its operand by its depth.
fn convert(operands: &[u8], rule: Rule, sheet: &mut Sheet)
    requires { ConversionRoom operands.now rule sheet.old }
    ensures { Wrote sheet.old (encode (conversions operands.now (arguments_of rule))) sheet.new }
{
    for (i, operand) in operands.iter().enumerate() {
        let depth = operands.len() - 1 - i;
        let wanted = rule.argument(i);
        if *operand != wanted {
            sheet.line(CONVERSION_LINE, depth as u8, wanted, SPARE);
        }
    }
}
