// An overload set as a list of rules in order of preference, with a mask of those that are left.
//
// The crate shares a vector of rules by reference count. Here, without a heap, up to 63 small records stand in an array, with a length;
// bit k of the mask says that rule k is a member. Whoever hands in a List may have put anything there, so each public operation tests
// it first; `rule` alone reads one entry as it stands.

ghost use Rattle.std.specs.Prelude.{map, ◌≡◌, ◌-◌, ◌^◌, ◌≤◌, leb, ltb, length, get_or};
ghost use Rattle.scalars.specs.Mask.{choose, padded, every};
ghost use Rattle.rules.specs.Rule.{blank_rule, rule_of, signature_of, known_rule, short_rule};
ghost use Rattle.scalars.specs.Paper.{test_paper, count_paper};
ghost use Rattle.rules.specs.RulePaper.{listing_paper, types_paper};
ghost use Rattle.lists.specs.ChosenPaper.{list_paper, chosen_paper};
ghost use Rattle.lists.specs.List.{most_rules, checked_list, from_rules, list_arg, list_step, list_empty, list_count, list_preferred, list_listing, list_allowed};
ghost use Rattle.lists.specs.private.TestedPaper.{tested_paper};
ghost use Rattle.rules.specs.declared.rule.Keep.TheVariants as keep;

use crate::tested::TestedList;
use crate::walks::{RuleSet, filter, longest};
use rules::{AllowedArgs, Keep, Listing, MOST_ARGUMENTS, Part, Rule};
use scalars::{BitNumber, Refusal};
use types::LAST_CODE;

// The most rules of a List.
pub const MOST_RULES: usize = 63;

#[derive(Clone, Copy)]
pub struct List {
    // The rules, each more preferred than all that follow it.
    pub rules: [Rule; MOST_RULES],
    // How many rules there are; entries behind them are not in use.
    pub len: usize,
    // Which of the rules are members.
    pub members: u64,
}

// A rule with its index: among its List's rules, or in a function's full listing.
#[derive(Clone, Copy)]
pub struct Chosen {
    pub index: u8,
    pub rule: Rule,
}

impl List {
    // The List of the first n rules, all of them members. Refused 7 for an unknown code, then 3 for more than 63 rules or a rule of
    // more than four arguments.
    pub fn from_rules(rules: [Rule; MOST_RULES], n: usize) -> Result<List, Refusal>
        ensures { list_paper result ≡ from_rules rules n }
    {
        List {
            rules,
            len: n,
            members: len_to_full_mask(n),
        }
        .checked()
    }

    // The List with 255 in what is not in use. Refused 7 for an unknown code or member, then 3 for too many rules or arguments.
    pub fn checked(self) -> Result<List, Refusal>
        ensures { list_paper result ≡ checked_list self }
    {
        Ok(self.tested()?.list)
    }

    // The same, with what the tests say of it.
    fn tested(self) -> Result<TestedList, Refusal>
        ensures { tested_paper result ≡ checked_list self }
    {
        let rules = &self.rules[..self.len.min(MOST_RULES)];
        if !all_known(rules) || !within(self.members, self.len) {
            return Err(Refusal::Unknown(0));
        }
        if MOST_RULES < self.len || !all_short(rules) {
            return Err(Refusal::TooMany);
        }
        let list = List {
            rules: cleaned(rules),
            ..self
        };
        Ok(TestedList { list })
    }

    // The rule at a number. From `MOST_RULES` on there is none, and the answer is the record of no rule.
    pub fn rule(self, number: BitNumber) -> Rule
        ensures { result ≡ get_or self.rules number.0 blank_rule }
    {
        let held = self.rules.get(usize::from(number.0));
        held.copied().unwrap_or(Rule::BLANK)
    }

    // The members whose rule has that argument, and fits a part of the type there: its constructor, or its scalar; the crate's `arg` is
    // both steps. Refused 7 for a type code above 180, then as the List is.
    pub fn arg(self, part: Part, i: usize, t: u8) -> Result<List, Refusal>
        ensures { list_paper result ≡ list_arg part i t self }
    {
        if LAST_CODE < t {
            return Err(Refusal::Unknown(0));
        }
        self.step(Keep::Argument(part, i, t))
    }

    // The members without an abstract argument. Refused as the List is.
    pub fn concrete_only(self) -> Result<List, Refusal>
        ensures { list_paper result ≡ list_step keep.Concrete self }
    {
        self.step(Keep::Concrete)
    }

    // The members that pass a test.
    fn step(self, keep: Keep) -> Result<List, Refusal>
        ensures { list_paper result ≡ list_step keep self }
    {
        let list = self.checked()?;
        let left = filter(list, RuleSet(list.members), keep);
        Ok(List {
            members: left.0,
            ..list
        })
    }

    // Whether no member is left. Refused as the List is.
    pub fn is_empty(self) -> Result<bool, Refusal>
        ensures { test_paper result ≡ list_empty self }
    {
        Ok(self.tested()?.list.members == 0)
    }

    // The least number of arguments: as in the crate, the longest member's. Refused as the List is, then 1 where no member is left.
    pub fn min_arguments(self) -> Result<u8, Refusal>
        ensures { count_paper result ≡ list_count self }
    {
        self.max_arguments()
    }

    // The most arguments: the longest member's. Refused as the List is, then 1 where no member is left.
    pub fn max_arguments(self) -> Result<u8, Refusal>
        ensures { count_paper result ≡ list_count self }
    {
        longest(self.checked()?)
    }

    // The first member, with its index. Refused as the List is, then 1 where no member is left.
    pub fn most_preferred(self) -> Result<Chosen, Refusal>
        ensures { chosen_paper result ≡ list_preferred self }
    {
        self.tested()?.first()
    }

    // The members' rules, in order. Refused as the List is.
    pub fn overload_list(self) -> Result<Listing, Refusal>
        ensures { listing_paper result ≡ list_listing self }
    {
        Ok(self.tested()?.listed())
    }

    // The members' types at an argument, in order. Refused as the List is, then 4 where some member lacks that argument.
    pub fn allowed_args(self, i: usize) -> Result<AllowedArgs, Refusal>
        ensures { types_paper result ≡ list_allowed i self }
    {
        self.tested()?.allowed(i)
    }
}

// The mask of n members; of more rules than a List holds, none.
pub(crate) fn len_to_full_mask(n: usize) -> u64
    ensures { result ≡ choose (leb n most_rules) (2 ^ n - 1) 0 }
{
    if MOST_RULES < n {
        return 0;
    }
    (1u64 << n) - 1
}

// Whether each member's bit is a rule's.
fn within(members: u64, n: usize) -> bool
    ensures { result ≡ ltb members (2 ^ n) }
{
    MOST_RULES < n || members < 1u64 << n
}

// Whether the codes of the rules are known.
fn all_known(rules: &[Rule]) -> bool
    ensures { result ≡ every known_rule rules.now }
{
    rules.iter().all(|rule| rule.known())
}

// Whether none of the rules has more than four arguments.
fn all_short(rules: &[Rule]) -> bool
    ensures { result ≡ every short_rule rules.now }
{
    rules.iter().all(|rule| rule.count <= MOST_ARGUMENTS)
}

// The rules with 255 in what is not in use, and behind them records of no rule.
fn cleaned(rules: &[Rule]) -> [Rule; MOST_RULES]
    requires { length rules.now ≤ most_rules }
    ensures { result ≡ padded most_rules blank_rule (map rule_of (map signature_of rules.now)) }
{
    let mut out = [Rule::BLANK; MOST_RULES];
    for (i, rule) in rules.iter().enumerate() {
        out[i] = rule.cleaned();
    }
    out
}
