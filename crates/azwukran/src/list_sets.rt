// Lists made by hand: a question hands the rules in as bytes, six a rule (four arguments, their count, the result), and the members as a
// mask in bytes. A step writes the mask of those that are left into lent bytes, so a caller hands it in again for the next step. Rules and
// members stand apart in each signature, as the C interface has them.

ghost use Rattle.std.specs.Prelude.{◌≡◌};
ghost use Rattle.rules.specs.declared.rule.Part.TheVariants as part;
ghost use Rattle.rules.specs.declared.rule.Keep.TheVariants as keep;
ghost use Rattle.lists.specs.ChosenPaper.{list_paper, no_choice};
ghost use Rattle.lists.specs.List.{no_list_values, list_arg, list_step, list_preferred};
ghost use Rattle.c_sets.specs.Sets.{rules_handed, of_list};
ghost use Rattle.c_answers.specs.Answers.{chosen_for_c, mask_for_c};
ghost use Rattle.azwukran.specs.Lent.{members_left, in_room, lent_by};

use crate::lent::lend_answer;
use c_answers::{ChosenForC, MaskForC};
use c_sets::{ListParts, RULE_BYTES};
use lists::List;
use rules::Part;
use scalars::Refusal;

// The members with the constructor of an argument's type, as a mask in front of the lent bytes. The C interface has a function for each part.
pub fn azwukran_list_arg_shape(
    rules: &[u8],
    members: &[u8],
    index: usize,
    code: u8,
    out: &mut [u8],
) -> MaskForC
    ensures answer { result ≡ mask_for_c (in_room (rules_handed rules.now) out.old (members_left (of_list rules.now members.now (list_arg part.Shape index code) no_list_values))) }
    ensures lent { out.new ≡ lent_by (rules_handed rules.now) (members_left (of_list rules.now members.now (list_arg part.Shape index code) no_list_values)) out.old }
{
    let left = ListParts { rules, members }.arg(Part::Shape, index, code);
    lend_members(left, rules, out)
}

// The members with a scalar that an argument's type converts to, as a mask in front of the lent bytes.
pub fn azwukran_list_arg_number(
    rules: &[u8],
    members: &[u8],
    index: usize,
    code: u8,
    out: &mut [u8],
) -> MaskForC
    ensures answer { result ≡ mask_for_c (in_room (rules_handed rules.now) out.old (members_left (of_list rules.now members.now (list_arg part.Number index code) no_list_values))) }
    ensures lent { out.new ≡ lent_by (rules_handed rules.now) (members_left (of_list rules.now members.now (list_arg part.Number index code) no_list_values)) out.old }
{
    let left = ListParts { rules, members }.arg(Part::Number, index, code);
    lend_members(left, rules, out)
}

// The members without an abstract argument, as a mask in front of the lent bytes.
pub fn azwukran_list_concrete_only(rules: &[u8], members: &[u8], out: &mut [u8]) -> MaskForC
    ensures answer { result ≡ mask_for_c (in_room (rules_handed rules.now) out.old (members_left (of_list rules.now members.now (list_step keep.Concrete) no_list_values))) }
    ensures lent { out.new ≡ lent_by (rules_handed rules.now) (members_left (of_list rules.now members.now (list_step keep.Concrete) no_list_values)) out.old }
{
    let left = ListParts { rules, members }.concrete_only();
    lend_members(left, rules, out)
}

// The first member, with its index among the rules.
pub fn azwukran_list_preferred(rules: &[u8], members: &[u8]) -> ChosenForC
    ensures { result ≡ chosen_for_c (of_list rules.now members.now list_preferred no_choice) }
{
    ListParts { rules, members }.preferred().into()
}

// The mask of the members that a step leaves, over the rules that were handed in.
fn lend_members(left: Result<List, Refusal>, rules: &[u8], out: &mut [u8]) -> MaskForC
    ensures answer { result ≡ mask_for_c (in_room (rules_handed rules.now) out.old (members_left (list_paper left))) }
    ensures lent { out.new ≡ lent_by (rules_handed rules.now) (members_left (list_paper left)) out.old }
{
    let handed = rules.len() / RULE_BYTES;
    lend_answer(left.map(|list| list.members), handed, out).into()
}
