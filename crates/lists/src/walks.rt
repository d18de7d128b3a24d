// The walks over the members of any List, lowest bit first, by `OneBitsIter` and `OneBit::number`. A step's walk answers which rules are
// left, and not another array of them. Since calls go through these, they read the array in place by the member's number, where
// `List::rule` would be handed a copy of the List.

ghost use Rattle.std.specs.Prelude.{◌≡◌, ◌%◌, ◌^◌, min};
ghost use Rattle.scalars.specs.Paper.{count_paper};
ghost use Rattle.rules.specs.Rule.{passes};
ghost use Rattle.rules.specs.declared.rule.Part.TheVariants.{Shape, Number};
ghost use Rattle.rules.specs.declared.rule.Keep.TheVariants.{Argument};
ghost use Rattle.scalars.specs.Mask.{choose, sift};
ghost use Rattle.lists.specs.List.{most_rules, signatures, listing};
ghost use Rattle.rules.specs.Verdict.{count_of};

use crate::list::{List, MOST_RULES};
use rules::{Keep, Part};
use scalars::{OneBitsIter, Refusal};

// A set of a List's rules: bit k stands for the rule at the index k. It stands beside the List, which stays as it is while the set shrinks.
#[derive(Clone, Copy)]
pub struct RuleSet(pub u64);

// Those of the rules that pass a test: one walk for every step. A bit that has no rule passes none.
pub fn filter(list: List, rules: RuleSet, keep: Keep) -> RuleSet
    ensures { result.0 ≡ sift (passes keep) (signatures list) rules.0 }
{
    let mut left: u64 = 0;
    for bit in OneBitsIter(with_rules(list.len, rules.0)) {
        let rule = list.rules[usize::from(bit.number().0)];
        left += if_kept(bit.0, rule.passes(keep));
    }
    RuleSet(left)
}

// What the two steps of an operand leave: by its shape, and of those by its number.
#[derive(Clone, Copy)]
pub struct BothSteps {
    pub shaped: RuleSet,
    pub left: RuleSet,
}

// Both steps of an operand at an index, in one walk, since every call makes both: a List that is handed to two walks is copied twice.
pub fn filter_both(list: List, rules: RuleSet, i: usize, t: u8) -> BothSteps
    ensures shaped { result.shaped.0 ≡ sift (passes (Argument Shape i t)) (signatures list) rules.0 }
    ensures left { result.left.0 ≡ sift (passes (Argument Number i t)) (signatures list) result.shaped.0 }
{
    let mut shaped: u64 = 0;
    let mut left: u64 = 0;
    for bit in OneBitsIter(with_rules(list.len, rules.0)) {
        let rule = list.rules[usize::from(bit.number().0)];
        let of_shape = if_kept(bit.0, rule.passes(Keep::Argument(Part::Shape, i, t)));
        let of_both = if_kept(of_shape, rule.passes(Keep::Argument(Part::Number, i, t)));
        shaped += of_shape;
        left += of_both;
    }
    BothSteps {
        shaped: RuleSet(shaped),
        left: RuleSet(left),
    }
}

// A member's mask, or no member's where it is not kept.
fn if_kept(mask: u64, kept: bool) -> u64
    ensures { result ≡ choose kept mask 0 }
{
    if kept { mask } else { 0 }
}

// The longest member's number of arguments. Refused 1 where no member is left.
pub fn longest(list: List) -> Result<u8, Refusal>
    ensures { count_paper result ≡ count_of (listing list) }
{
    let members = with_rules(list.len, list.members);
    if members == 0 {
        return Err(Refusal::EmptySet(0));
    }
    let mut best: u8 = 0;
    for bit in OneBitsIter(members) {
        let rule = list.rules[usize::from(bit.number().0)];
        best = best.max(rule.len());
    }
    Ok(best)
}

// The bits of a mask that have one of n rules: every member of a tested List.
fn with_rules(n: usize, mask: u64) -> u64
    ensures { result ≡ mask % 2 ^ min n most_rules }
{
    mask % (1u64 << n.min(MOST_RULES))
}
