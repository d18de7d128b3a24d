// A call of the List of a built-in function's rules: the rule that it chooses for operands of these types, and which of its rules survive
// them. The List keeps its rules, and the mask of those that are left shrinks.

ghost use Rattle.std.specs.Prelude.{◌≡◌};
ghost use Rattle.calls.specs.SurvivorsPaper.{survivors_paper};
ghost use Rattle.calls.specs.private.CallSets.{Full};
ghost use Rattle.calls.specs.private.Steps.{mask_answer};

use crate::outcome::NoRule;
use lists::{Chosen, List, RuleSet, filter, filter_both, longest};
use rules::{Keep, Part};
use scalars::{OneBitsIter, Refusal};

// A List as each function's is: as tested, and each of its rules a member.
#[derive(Clone, Copy)]
pub(crate) struct FullList {
    pub(crate) list: List,
    ghost full: { Full list },
}

impl FullList {
    ghost use Rattle.std.specs.Prelude.{◌<◌, ◌^◌};
    ghost use Rattle.scalars.specs.Mask.{select};
    ghost use Rattle.rules.specs.Verdict.{longest};
    ghost use Rattle.lists.specs.Entry.{number};
    ghost use Rattle.lists.specs.List.{signatures};
    ghost use Rattle.calls.specs.Choice.{first, resolve};
    ghost use Rattle.calls.specs.Call.{answered};
    ghost use Rattle.calls.specs.OutcomePaper.{outcome_paper};
    ghost use Rattle.calls.specs.private.Steps.{Stepped};

    // The rule that the List chooses: the first of those that its steps leave.
    pub(crate) fn call(self, operands: &[u8], switch: bool) -> Result<Chosen, NoRule>
        ensures { outcome_paper result ≡ answered (resolve switch (signatures self.list) operands.now) }
    {
        let left = self.stepped(operands, switch)?;
        self.first_of(left)
    }

    // The first of the rules that are left. That of `lists` is of a List's own members, and has a refusal where none of them is left.
    fn first_of(self, left: RuleSet) -> Result<Chosen, NoRule>
        requires { left.0 < 2 ^ self.list.len }
        ensures { outcome_paper result ≡ answered (first (select (number 0 (signatures self.list)) left.0)) }
    {
        let Some(bit) = OneBitsIter(left.0).next() else {
            return Err(NoRule::NoneConcrete);
        };
        let number = bit.number();
        Ok(Chosen {
            index: number.0,
            rule: self.list.rule(number),
        })
    }

    // What a call's steps leave: each operand in turn leaves the rules of its shape, and of those the ones that its number fits; then the
    // switch those without an abstract argument. It may leave none only by the switch.
    pub(crate) fn stepped(self, operands: &[u8], switch: bool) -> Result<RuleSet, NoRule>
        ensures { Stepped switch self.list operands.now result }
    {
        if operands.len() != self.most_arguments() {
            return Err(NoRule::WrongCount);
        }
        let mut left = RuleSet(self.list.members);
        for (index, operand) in operands.iter().enumerate() {
            let both = filter_both(self.list, left, index, *operand);
            if both.shaped.0 == 0 {
                return Err(NoRule::NoneAfter(Part::Shape, index));
            }
            left = both.left;
            if left.0 == 0 {
                return Err(NoRule::NoneAfter(Part::Number, index));
            }
        }
        if switch {
            return Ok(filter(self.list, left, Keep::Concrete));
        }
        Ok(left)
    }

    // The longest rule's number of arguments, 0 where there is no rule.
    fn most_arguments(self) -> usize
        ensures { result ≡ longest (signatures self.list) }
    {
        usize::from(longest(self.list).unwrap_or(0))
    }
}

// The rules that are left. Refused 1 where none is.
pub(crate) fn members(left: RuleSet) -> Result<RuleSet, Refusal>
    ensures { survivors_paper result ≡ mask_answer left.0 }
{
    if left.0 == 0 {
        return Err(Refusal::EmptySet(0));
    }
    Ok(left)
}
