// Type rules: the types of a rule's arguments, and its conclusion.
//
// The crate holds a vector of arguments. A rule here is a small record of four argument codes, their count and a result code, since
// nothing is put on a heap, and the definitions and what is exported to C name these fields; its meaning is the list of its arguments
// and its result. Fields not in use are never read, and hold `UNUSED` in answers.

ghost use Rattle.std.specs.Prelude.{◌≡◌, not, leb, length, get_or};
ghost use Rattle.scalars.specs.Mask.{choose, both, either};
ghost use Rattle.scalars.specs.Paper.{unused};
ghost use Rattle.types.specs.Domain.{value?, is_abstract};
ghost use Rattle.rules.specs.Signature.{same_shape, same_number, reaches, fits, concrete};
ghost use Rattle.types.specs.TypePaper.{code_paper};
ghost use Rattle.rules.specs.RulePaper.{rule_paper};
ghost use Rattle.rules.specs.Rule.{arguments_of, signature_of, rule_of, checked_rule, known_rule, predeclared_of, passes};

use scalars::{Refusal, Scalar, ScalarSet, UNUSED};
use types::{ConstructorSize, LAST_CODE, TypeParts, VALUES, code_of, is_abstract, leaf_scalar};

// The most arguments of a rule.
pub const MOST_ARGUMENTS: u8 = 4;

#[derive(Clone, Copy, PartialEq, Eq)]
pub struct Rule {
    pub a0: u8,
    pub a1: u8,
    pub a2: u8,
    pub a3: u8,
    pub count: u8,
    pub result: u8,
}

// The part of an operand's type that an argument step asks about. Data and no closure, as the next one is: definitions and theorems
// speak of steps by their case.
#[derive(Clone, Copy)]
pub enum Part {
    // The constructor, which must be the argument's.
    Shape,
    // The scalar, which must convert to the argument's.
    Number,
}

// What a step keeps of a set: the rules whose argument at an index fits a part of a type, or those without an abstract argument.
#[derive(Clone, Copy)]
pub enum Keep {
    Argument(Part, usize, u8),
    Concrete,
}

// The two functions whose results have types of their own. Data, as `Part` is: a definition speaks of them by their case.
#[derive(Clone, Copy)]
pub enum Predeclared {
    Frexp,
    Modf,
}

#[tactic(auto, using(crate::proofs::Rules::of_records))]
impl Rule {
    // The record of no rule.
    pub const BLANK: Rule = Rule {
        a0: UNUSED,
        a1: UNUSED,
        a2: UNUSED,
        a3: UNUSED,
        count: UNUSED,
        result: UNUSED,
    };

    // The rule with `UNUSED` in the fields not in use. Refused 7 for an unknown code, then 3 for more than four arguments.
    #[tactic(auto, unfolding(crate::specs::Rule::checked_rule, crate::specs::Rule::short_rule))]
    pub fn checked(self) -> Result<Rule, Refusal>
        ensures { rule_paper result ≡ checked_rule self }
    {
        if !self.known() {
            return Err(Refusal::Unknown(0));
        }
        if MOST_ARGUMENTS < self.count {
            return Err(Refusal::TooMany);
        }
        Ok(self.cleaned())
    }

    // Whether the arguments are value types and the result is a type.
    pub fn known(self) -> bool
        ensures { result ≡ known_rule self }
    {
        let n = self.count;
        known_at(n, 0, self.a0)
            && known_at(n, 1, self.a1)
            && known_at(n, 2, self.a2)
            && known_at(n, 3, self.a3)
            && self.result <= LAST_CODE
    }

    // The rule with `UNUSED` in the fields not in use. A rule has no more arguments than fields, whatever its count says.
    pub fn cleaned(self) -> Rule
        ensures { result ≡ rule_of (signature_of self) }
    {
        let n = self.len();
        Rule {
            a0: used(n, 0, self.a0),
            a1: used(n, 1, self.a1),
            a2: used(n, 2, self.a2),
            a3: used(n, 3, self.a3),
            count: n,
            result: self.result,
        }
    }

    // How many arguments the rule has: its count, but no more than it has fields for.
    pub fn len(self) -> u8
        ensures { result ≡ length (arguments_of self) }
    {
        self.count.min(MOST_ARGUMENTS)
    }

    // Whether the rule passes a step's test.
    pub fn passes(self, keep: Keep) -> bool
        ensures { result ≡ passes keep (signature_of self) }
    {
        match keep {
            Keep::Argument(part, i, t) => self.fits(part, i, t),
            Keep::Concrete => self.concrete(),
        }
    }

    // Whether the rule has an argument at the index, and it fits this part of the type. Three parameters, as the step of every set has them;
    // `Keep` holds them where they are handed on.
    fn fits(self, part: Part, i: usize, t: u8) -> bool
        ensures { result ≡ fits part i t (signature_of self) }
    {
        let a = self.argument(i);
        match part {
            Part::Shape => same_shape(t, a),
            Part::Number => same_number(t, a),
        }
    }

    // The argument at an index; `UNUSED` where there is none.
    pub fn argument(self, i: usize) -> u8
        ensures { result ≡ get_or (arguments_of self) i unused }
    {
        if usize::from(self.count) <= i {
            return UNUSED;
        }
        match i {
            0 => self.a0,
            1 => self.a1,
            2 => self.a2,
            3 => self.a3,
            _ => UNUSED,
        }
    }

    // Whether no argument is abstract.
    fn concrete(self) -> bool
        ensures { result ≡ concrete (signature_of self) }
    {
        let n = self.count;
        !abstract_at(n, 0, self.a0)
            && !abstract_at(n, 1, self.a1)
            && !abstract_at(n, 2, self.a2)
            && !abstract_at(n, 3, self.a3)
    }
}

// Whether an operand's type equals an argument's, or is reached by converting its scalar under the same constructor.
// The operand's code and the argument's, in this order, as in the definitions.
#[tactic(auto, unfolding(crate::specs::Signature::reaches))]
pub fn reaches(t: u8, a: u8) -> bool
    ensures { result ≡ reaches t a }
{
    same_shape(t, a) && same_number(t, a)
}

// Whether an operand's constructor is an argument's; a type code from 156 on has none.
fn same_shape(t: u8, a: u8) -> bool
    ensures { result ≡ same_shape t a }
{
    t < VALUES && t / Scalar::COUNT == a / Scalar::COUNT
}

// Whether an operand's scalar converts to an argument's; a type code from 156 on has none.
fn same_number(t: u8, a: u8) -> bool
    ensures { result ≡ same_number t a }
{
    let Ok(Some(from)) = leaf_scalar(t) else {
        return false;
    };
    let Ok(Some(to)) = leaf_scalar(a) else {
        return false;
    };
    ScalarSet::convertible_from(from).contains(to)
}

// A rule's fields are asked one by one, each with the rule's count and its own index.
//
// Whether an argument is not there, or is a value type.
fn known_at(count: u8, i: u8, a: u8) -> bool
    ensures { result ≡ either (leb count i) (value? a) }
{
    count <= i || a < VALUES
}

// Whether an argument is there and abstract.
fn abstract_at(count: u8, i: u8, a: u8) -> bool
    ensures { result ≡ both (not (leb count i)) (is_abstract a) }
{
    i < count && is_abstract(a)
}

// An argument, or `UNUSED` where it is not there.
fn used(count: u8, i: u8, a: u8) -> u8
    ensures { result ≡ choose (leb count i) unused a }
{
    if count <= i { UNUSED } else { a }
}

// The result type of Frexp or Modf. Refused 7 at 0 for a size that does not exist, at 1 for an unknown scalar; then 13 for a matrix,
// or for a scalar but F32, F16 and F64.
#[tactic(auto, unfolding(crate::specs::Rule::predeclared_of))]
pub fn for_frexp_modf(
    function: Predeclared,
    size: ConstructorSize,
    scalar: Scalar,
) -> Result<u8, Refusal>
    ensures { code_paper result ≡ predeclared_of function size scalar.0 }
{
    let constructor = size.constructor()?;
    match function {
        Predeclared::Frexp => code_of(TypeParts::Frexp(constructor, scalar)),
        Predeclared::Modf => code_of(TypeParts::Modf(constructor, scalar)),
    }
}
