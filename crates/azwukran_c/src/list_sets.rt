// Lists made by hand, for C: rules as bytes, six a rule (four arguments, their count, the result), members as a mask in bytes. Each function
// calls the library's of its name and promises what that one does.

ghost use Rattle.std.specs.Prelude.{◌≡◌};
ghost use Rattle.rules.specs.declared.rule.Part.TheVariants as part;
ghost use Rattle.rules.specs.declared.rule.Keep.TheVariants as keep;
ghost use Rattle.lists.specs.ChosenPaper.{no_choice};
ghost use Rattle.lists.specs.List.{no_list_values, list_arg, list_step, list_preferred};
ghost use Rattle.c_sets.specs.Sets.{rules_handed, of_list};
ghost use Rattle.c_answers.specs.Answers.{chosen_for_c, mask_for_c};
ghost use Rattle.azwukran.specs.Lent.{members_left, in_room, lent_by};

use c_answers::{ChosenForC, MaskForC};

// The members with the constructor of an argument's type, as a mask in front of the lent bytes.
#[unsafe(no_mangle)]
pub extern "C" fn azwukran_list_arg_shape(
    rules: &[u8],
    members: &[u8],
    index: usize,
    code: u8,
    out: &mut [u8],
) -> MaskForC
    ensures answer { result ≡ mask_for_c (in_room (rules_handed rules.now) out.old (members_left (of_list rules.now members.now (list_arg part.Shape index code) no_list_values))) }
    ensures lent { out.new ≡ lent_by (rules_handed rules.now) (members_left (of_list rules.now members.now (list_arg part.Shape index code) no_list_values)) out.old }
{
    azwukran::azwukran_list_arg_shape(rules, members, index, code, out)
}

// The members with a scalar that an argument's type converts to, as a mask in front of the lent bytes.
#[unsafe(no_mangle)]
pub extern "C" fn azwukran_list_arg_number(
    rules: &[u8],
    members: &[u8],
    index: usize,
    code: u8,
    out: &mut [u8],
) -> MaskForC
    ensures answer { result ≡ mask_for_c (in_room (rules_handed rules.now) out.old (members_left (of_list rules.now members.now (list_arg part.Number index code) no_list_values))) }
    ensures lent { out.new ≡ lent_by (rules_handed rules.now) (members_left (of_list rules.now members.now (list_arg part.Number index code) no_list_values)) out.old }
{
    azwukran::azwukran_list_arg_number(rules, members, index, code, out)
}

// The members without an abstract argument, as a mask in front of the lent bytes.
#[unsafe(no_mangle)]
pub extern "C" fn azwukran_list_concrete_only(
    rules: &[u8],
    members: &[u8],
    out: &mut [u8],
) -> MaskForC
    ensures answer { result ≡ mask_for_c (in_room (rules_handed rules.now) out.old (members_left (of_list rules.now members.now (list_step keep.Concrete) no_list_values))) }
    ensures lent { out.new ≡ lent_by (rules_handed rules.now) (members_left (of_list rules.now members.now (list_step keep.Concrete) no_list_values)) out.old }
{
    azwukran::azwukran_list_concrete_only(rules, members, out)
}

// The first member, with its index among the rules.
#[unsafe(no_mangle)]
pub extern "C" fn azwukran_list_preferred(rules: &[u8], members: &[u8]) -> ChosenForC
    ensures { result ≡ chosen_for_c (of_list rules.now members.now list_preferred no_choice) }
{
    azwukran::azwukran_list_preferred(rules, members)
}
