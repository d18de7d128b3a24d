// Regular sets made by hand: a question hands the set in as its parts, arity, masks of constructors and of scalars, and conclusion. A step
// answers them, so a caller hands them in again for the next step. The parts stand apart in each signature, as the C interface has them.

ghost use Rattle.std.specs.Prelude.{◌≡◌};
ghost use Rattle.rules.specs.RulePaper.{no_rule};
ghost use Rattle.rules.specs.declared.rule.Part.TheVariants as part;
ghost use Rattle.regular.specs.Regular.{regular_arg, regular_concrete, regular_preferred};
ghost use Rattle.regular.specs.SetPaper.{no_set};
ghost use Rattle.c_sets.specs.Sets.{of_regular, regular_rule_at};
ghost use Rattle.c_answers.specs.Answers.{rule_for_c, regular_for_c};

use c_answers::{RegularForC, RuleForC};
use c_sets::RegularParts;
use rules::Part;
use scalars::ScalarSet;
use types::ConstructorSet;

// The set with the constructor of an argument's type alone. The C interface has a function for each part.
pub fn azwukran_regular_arg_shape(
    arity: u8,
    constructors: u16,
    scalars: u16,
    conclusion: u8,
    index: usize,
    code: u8,
) -> RegularForC
    ensures { result ≡ regular_for_c (of_regular arity constructors scalars conclusion (regular_arg part.Shape index code) no_set) }
{
    parts(arity, constructors, scalars, conclusion)
        .arg(Part::Shape, index, code)
        .into()
}

// The set with the scalars alone that an argument's type converts to.
pub fn azwukran_regular_arg_number(
    arity: u8,
    constructors: u16,
    scalars: u16,
    conclusion: u8,
    index: usize,
    code: u8,
) -> RegularForC
    ensures { result ≡ regular_for_c (of_regular arity constructors scalars conclusion (regular_arg part.Number index code) no_set) }
{
    parts(arity, constructors, scalars, conclusion)
        .arg(Part::Number, index, code)
        .into()
}

// The set without its abstract scalars.
pub fn azwukran_regular_concrete_only(
    arity: u8,
    constructors: u16,
    scalars: u16,
    conclusion: u8,
) -> RegularForC
    ensures { result ≡ regular_for_c (of_regular arity constructors scalars conclusion regular_concrete no_set) }
{
    parts(arity, constructors, scalars, conclusion)
        .concrete_only()
        .into()
}

// The preferred rule.
pub fn azwukran_regular_preferred(
    arity: u8,
    constructors: u16,
    scalars: u16,
    conclusion: u8,
) -> RuleForC
    ensures { result ≡ rule_for_c (of_regular arity constructors scalars conclusion regular_preferred no_rule) }
{
    parts(arity, constructors, scalars, conclusion)
        .preferred()
        .into()
}

// The rule at an index of the set's listing.
pub fn azwukran_regular_rule(
    arity: u8,
    constructors: u16,
    scalars: u16,
    conclusion: u8,
    index: u8,
) -> RuleForC
    ensures { result ≡ rule_for_c (of_regular arity constructors scalars conclusion (regular_rule_at index) no_rule) }
{
    parts(arity, constructors, scalars, conclusion)
        .rule(index)
        .into()
}

// The parts of a set, as a caller hands them in.
fn parts(arity: u8, constructors: u16, scalars: u16, conclusion: u8) -> RegularParts
    ensures { result ≡ record { arity = arity; constructors = record { 0 = constructors }; scalars = record { 0 = scalars }; conclusion = conclusion } }
{
    RegularParts {
        arity,
        constructors: ConstructorSet(constructors),
        scalars: ScalarSet(scalars),
        conclusion,
    }
}
