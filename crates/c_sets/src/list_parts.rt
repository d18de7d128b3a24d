// A List made by hand: six bytes a rule, which are its four arguments, their number and the result, and the mask of the members as bytes.
// Each question first refuses 8 where the last rule is cut short, at that rule, then 8 where the mask is, at the bytes that there are, then
// 7 for a member that is no rule; the List's own tests follow.

ghost use Rattle.std.specs.Prelude.{◌≡◌, ◌<◌};
ghost use Rattle.lists.specs.ChosenPaper.{list_paper, chosen_paper, no_choice};
ghost use Rattle.lists.specs.List.{most_rules, accepted_list, no_list_values, list_arg, list_step, list_preferred};
ghost use Rattle.rules.specs.declared.rule.Keep.TheVariants as keep;
ghost use Rattle.c_sets.specs.Sets.{byte_rule, byte_rules, of_list};

use lending::mask_in;
use lists::{Chosen, List, MOST_RULES};
use rules::{Part, Rule};
use scalars::Refusal;

// The bytes of a rule.
pub const RULE_BYTES: usize = 6;

#[derive(Clone, Copy)]
pub struct ListParts<'a> {
    // The rules, one behind another.
    pub rules: &'a [u8],
    // The mask of the members.
    pub members: &'a [u8],
}

impl<'a> ListParts<'a> {
    // The members whose type at an argument fits a part of this one. Refused as `List::arg` is.
    pub fn arg(self, part: Part, index: usize, code: u8) -> Result<List, Refusal>
        ensures { list_paper result ≡ of_list self.entry.rules.now self.entry.members.now (list_arg part index code) no_list_values }
    {
        self.handed_in()?.arg(part, index, code)
    }

    // The members without an abstract argument. Refused as `List::concrete_only` is.
    pub fn concrete_only(self) -> Result<List, Refusal>
        ensures { list_paper result ≡ of_list self.entry.rules.now self.entry.members.now (list_step keep.Concrete) no_list_values }
    {
        self.handed_in()?.concrete_only()
    }

    // The first member, with its index. Refused as `List::most_preferred` is.
    pub fn preferred(self) -> Result<Chosen, Refusal>
        ensures { chosen_paper result ≡ of_list self.entry.rules.now self.entry.members.now list_preferred no_choice }
    {
        self.handed_in()?.most_preferred()
    }

    // The List as it was handed in; no test but those of the form.
    fn handed_in(self) -> Result<List, Refusal>
        ensures { list_paper result ≡ of_list self.entry.rules.now self.entry.members.now accepted_list no_list_values }
    {
        let n = self.rules.len() / RULE_BYTES;
        if self.rules.len() % RULE_BYTES != 0 {
            return Err(Refusal::IllFormed(n * RULE_BYTES));
        }
        let members = mask_in(self.members, n)?;
        Ok(List {
            rules: rules_in(self.rules),
            len: n,
            members,
        })
    }
}

// The rules that stand one behind another, as far as the array of a List holds them; blank behind the last whole one. A loop, since of the
// calls that `array::from_fn` makes a proof does not know that all of them read the same bytes.
pub fn rules_in(bytes: &[u8]) -> [Rule; MOST_RULES]
    ensures { result ≡ byte_rules bytes.now }
{
    let mut out = [Rule::BLANK; MOST_RULES];
    for k in 0..MOST_RULES {
        out[k] = rule_in(bytes, k);
    }
    out
}

// The k-th rule; behind the last whole one, the blank rule.
fn rule_in(bytes: &[u8], k: usize) -> Rule
    requires { k < most_rules }
    ensures { result ≡ byte_rule bytes.now k }
{
    let at = RULE_BYTES * k;
    if bytes.len() < at + RULE_BYTES {
        return Rule::BLANK;
    }
    Rule {
        a0: bytes[at],
        a1: bytes[at + 1],
        a2: bytes[at + 2],
        a3: bytes[at + 3],
        count: bytes[at + 4],
        result: bytes[at + 5],
    }
}
