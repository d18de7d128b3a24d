// The machine's stack, an array of 64 operands with a count, since nothing is on a heap, and what each line does to it. A method that
// does a line, or part of one, answers `None` where the machine stops, and nobody then asks for the stack.

ghost use Rattle.std.specs.Prelude.{◌≡◌, ◌≤◌, not, eqb, length};
ghost use Rattle.scalars.specs.Mask.{either};
ghost use Rattle.rules.specs.Signature.{concrete};
ghost use Rattle.rules.specs.Rule.{most_arguments, signature_of};
ghost use Rattle.machine.specs.Machine.{most_operands};

use crate::line::{CALL_LINE, CONVERSION_LINE, LEAF_LINE, SPARE};
use crate::machine::Ended;
use expressions::LAST_LEAF;
use functions::rule_at;
use rules::{Keep, Rule, reaches};
use scalars::UNUSED;
use types::{MEASURED, Operand};

// The stack holds at most so many operands.
const MOST_OPERANDS: usize = 64;

// What stands in the entries of the stack that are not in use.
const NO_OPERAND: Operand = Operand {
    code: UNUSED,
    measured: false,
};

// The operands, the topmost last; those from `top` on are not on the stack.
#[derive(Clone, Copy)]
pub(crate) struct Stack {
    operands: [Operand; MOST_OPERANDS],
    top: usize,
    ghost long: { length operands ≡ most_operands },
    ghost few: { top ≤ most_operands },
}

impl Stack {
    ghost use Rattle.std.specs.Prelude.{[], drop};
    ghost use Rattle.std.proofs.Math.Option.{some};
    ghost use Rattle.std.proofs.Math.ListN.{get_elem?};
    ghost use Rattle.types.specs.Operand.{any_measured};
    ghost use Rattle.functions.specs.Functions.{listing_of};
    ghost use Rattle.machine.specs.Line.{line_of};
    ghost use Rattle.machine.specs.Machine.{step_if};
    ghost use Rattle.machine.specs.private.TopLast.{push_last, convert_last, apply_last, step_last};
    ghost use Rattle.machine.specs.private.MachineStack.{alike_from, operands_on, left, leaf_done, ran_last};
    ghost use Rattle.machine.specs.Run.{ended_paper};

    // The empty stack.
    pub(crate) fn new() -> Self
        ensures { operands_on result ≡ [] }
    {
        Self {
            operands: [NO_OPERAND; MOST_OPERANDS],
            top: 0,
        }
    }

    // The end of a run with this stack.
    pub(crate) fn ended(&self) -> Ended
        ensures { ended_paper result ≡ ran_last (operands_on self.now) }
    {
        let top = if self.top == 0 {
            None
        } else {
            Some(self.operands[self.top - 1])
        };
        Ended {
            operands: self.top,
            top,
        }
    }

    // Does the line of these four bytes.
    pub(crate) fn line(&mut self, tag: u8, x: u8, y: u8, z: u8) -> Option<()>
        ensures { left result self.new ≡ step_if (step_last listing_of) (line_of tag x y z) (operands_on self.old) }
    {
        match tag {
            LEAF_LINE => {
                if MEASURED < y || z != SPARE {
                    return None;
                }
                self.leaf(Operand::of(x, y))
            }
            CALL_LINE => self.call(x, y, z),
            CONVERSION_LINE => {
                if z != SPARE {
                    return None;
                }
                self.convert(x, y)
            }
            _ => None,
        }
    }

    // A leaf: pushes its operand, which is not measured and abstract.
    fn leaf(&mut self, operand: Operand) -> Option<()>
        ensures { left result self.new ≡ leaf_done operand (operands_on self.old) }
    {
        if LAST_LEAF < operand.code || operand.is_measured_abstract() {
            return None;
        }
        self.push(operand)
    }

    // Pushes an operand, unless the stack is full.
    fn push(&mut self, operand: Operand) -> Option<()>
        ensures { left result self.new ≡ push_last operand (operands_on self.old) }
    {
        if MOST_OPERANDS <= self.top {
            return None;
        }
        self.operands[self.top] = operand;
        self.top += 1;
        Some(())
    }

    // Converts the operand that has `depth` others above it to the type `code`, which must be another; its mark stays.
    #[tactic(auto, unfolding(crate::specs::private::TopLast::convert_last))]
    fn convert(&mut self, depth: u8, code: u8) -> Option<()>
        ensures { left result self.new ≡ convert_last depth code (operands_on self.old) }
    {
        let above = usize::from(depth);
        if self.top <= above {
            return None;
        }
        let at = self.top - above - 1;
        let operand = self.operands[at];
        if operand.code == code || !reaches(operand.code, code) {
            return None;
        }
        self.operands[at] = Operand {
            code,
            measured: operand.measured,
        };
        Some(())
    }

    // Calls a function by the rule at an index of its full listing.
    fn call(&mut self, function: u8, index: u8, count: u8) -> Option<()>
        ensures { left result self.new ≡ apply_last count (operands_on self.old) (get_elem? (listing_of function) index) }
    {
        match rule_at(function, index) {
            Ok(rule) => self.apply(rule, count),
            Err(_) => None,
        }
    }

    // Pops the `count` operands of a rule and pushes its conclusion, which is measured if one of them is; then no argument may be
    // abstract.
    #[tactic(auto, unfolding(crate::specs::private::TopLast::apply_last))]
    fn apply(&mut self, rule: Rule, count: u8) -> Option<()>
        requires { rule.count ≤ most_arguments }
        ensures { left result self.new ≡ apply_last count (operands_on self.old) (some (signature_of rule)) }
    {
        if rule.count != count {
            return None;
        }
        let pops = usize::from(count);
        if self.top < pops {
            return None;
        }
        let first = self.top - pops;
        if !self.matches(rule) {
            return None;
        }
        let measured = self.any_measured_from(first);
        if !agrees(rule, measured) {
            return None;
        }
        self.top = first;
        self.push(Operand {
            code: rule.result,
            measured,
        })
    }

    // Whether an operand is measured among those from the one of this number on.
    fn any_measured_from(&self, first: usize) -> bool
        requires { first ≤ self.now.top }
        ensures { result ≡ any_measured (drop first (operands_on self.now)) }
    {
        self.operands[first..self.top]
            .iter()
            .any(|operand| operand.measured)
    }

    // Whether the topmost operands are of exactly the rule's types. Over the arguments' indices, since a rule's arguments are fields.
    fn matches(&self, rule: Rule) -> bool
        requires { (rule.count ≤ most_arguments) × (rule.count ≤ self.now.top) }
        ensures { result ≡ alike_from 0 self.now rule }
    {
        let count = usize::from(rule.count);
        let first = self.top - count;
        for i in 0..count {
            if !is_exactly(self.operands[first + i].code, rule.argument(i)) {
                return false;
            }
        }
        true
    }
}

// Whether a rule takes its operands where one of them is measured, or none is: it takes a measured one if no argument is abstract.
fn agrees(rule: Rule, measured: bool) -> bool
    ensures { result ≡ either (not measured) (concrete (signature_of rule)) }
{
    !measured || rule.passes(Keep::Concrete)
}

// Whether an operand's type is the argument's. A machine that converted here by itself would need no conversion lines: the must-fail edit
// `converts_by_itself` is such a one, which is why this is a function.
fn is_exactly(operand: u8, argument: u8) -> bool
    ensures { result ≡ eqb operand argument }
{
    operand == argument
}
