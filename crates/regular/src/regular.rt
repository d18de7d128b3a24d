// An overload set whose rules all have one shape: any of its constructors over any of its scalars, the same type for each argument.
//
// Two masks stand for up to 156 rules, listed by constructor and within one by scalar. Whoever hands in a set may have put anything
// there, so each public operation tests it first.

ghost use Rattle.std.specs.Prelude.{◌≡◌, [], ◌∷◌, map, ◌≤◌};
ghost use Rattle.scalars.specs.Mask.{bits};
ghost use Rattle.scalars.specs.Paper.{accepted, verdict_paper, test_paper, count_paper};
ghost use Rattle.scalars.specs.Domain.{scalar_count};
ghost use Rattle.types.specs.Constructor.{inner_of};
ghost use Rattle.types.specs.TypePaper.{code_paper};
ghost use Rattle.types.specs.TypeCode.{type_code};
ghost use Rattle.rules.specs.Rule.{most_arguments};
ghost use Rattle.rules.specs.RulePaper.{rule_paper, listing_paper, types_paper};
ghost use Rattle.regular.specs.SetPaper.{set_paper, regular_paper, conclusion_number, conclusion_from};
ghost use Rattle.regular.specs.Regular.{regular_verdict, regular_empty, regular_count, regular_arg, regular_concrete, regular_preferred, regular_rule, regular_listing, regular_allowed, empty_set?, narrowed, concrete_set, reached_scalars, codes_of};
ghost use Rattle.regular.specs.private.Tested.{codes_found, RowFits, put, Known, concluded_listing, concluded_for, sized_rule};

use rules::{
    AllowedArgs, Listing, MOST_ARGUMENTS, Part, Predeclared, Rule, for_frexp_modf, no_codes,
    no_rules,
};
use scalars::{OneBitsIter, Refusal, Scalar, ScalarSet};
use types::{Constructor, ConstructorSet, ConstructorSize, LAST_CODE, leaf_scalar};

#[derive(Clone, Copy)]
pub struct Regular {
    // The number of arguments in the rules.
    pub arity: u8,
    // The constructors to apply.
    pub constructors: ConstructorSet,
    // The scalars to apply them to.
    pub scalars: ScalarSet,
    // How a rule's result follows from its argument type.
    pub conclude: ConclusionRule,
}

// How a rule's result follows from its argument type.
#[derive(Clone, Copy)]
pub enum ConclusionRule {
    ArgumentType,
    Scalar,
    Frexp,
    Modf,
    U32,
    I32,
    Vec2F,
    Vec4F,
    Vec4I,
    Vec4U,
}

impl Regular {
    // The set of no rules.
    pub const EMPTY: Regular = Regular {
        arity: 0,
        constructors: ConstructorSet::EMPTY,
        scalars: ScalarSet::EMPTY,
        conclude: ConclusionRule::ArgumentType,
    };

    // Whether the set is one: refused 7 for an unknown bit, then 3 for more than four arguments.
    #[tactic(auto, unfolding(crate::specs::Regular::regular_verdict))]
    pub fn verdict(self) -> Result<(), Refusal>
        ensures { verdict_paper result ≡ regular_verdict self }
    {
        if ConstructorSet::ALL.0 < self.constructors.0 || ScalarSet::ALL.0 < self.scalars.0 {
            return Err(Refusal::Unknown(0));
        }
        if MOST_ARGUMENTS < self.arity {
            return Err(Refusal::TooMany);
        }
        Ok(())
    }

    // Whether the set has no rule. Refused as the set is.
    #[tactic(auto, using(crate::proofs::Listings::of_sets), unfolding(crate::specs::Regular::regular_empty))]
    pub fn is_empty(self) -> Result<bool, Refusal>
        ensures { test_paper result ≡ regular_empty self }
    {
        self.verdict()?;
        Ok(self.holds_none())
    }

    // Whether a tested set has no rule.
    #[tactic(auto, using(crate::proofs::Listings::of_sets))]
    pub fn holds_none(self) -> bool
        ensures { result ≡ empty_set? self }
    {
        self.constructors.0 == 0 || self.scalars.0 == 0
    }

    // The least number of arguments. Refused as the set is, then 1 where it has no rule.
    pub fn min_arguments(self) -> Result<u8, Refusal>
        ensures { count_paper result ≡ regular_count self }
    {
        self.max_arguments()
    }

    // The most arguments. Refused as the set is, then 1 where it has no rule.
    pub fn max_arguments(self) -> Result<u8, Refusal>
        ensures { count_paper result ≡ regular_count self }
    {
        if self.is_empty()? {
            return Err(Refusal::EmptySet(0));
        }
        Ok(self.arity)
    }

    // The rules whose type at an argument fits a part of this type: its own constructor, or the scalars that its scalar converts to; the
    // crate's `arg` is both steps. At or above the arity, EMPTY itself. Refused 7 for a type code above 180, then as the set is.
    #[tactic(auto, unfolding(crate::specs::Regular::regular_arg))]
    pub fn arg(self, part: Part, i: usize, t: u8) -> Result<Regular, Refusal>
        ensures { regular_paper result ≡ regular_arg part i t self }
    {
        if LAST_CODE < t {
            return Err(Refusal::Unknown(0));
        }
        self.verdict()?;
        if usize::from(self.arity) <= i {
            return Ok(Regular::EMPTY);
        }
        Ok(self.narrow(part, t))
    }

    // One mask anded with what a type allows: the constructors by its shape, the scalars by its number. The rest is kept, also where
    // nothing is left.
    #[tactic(auto, unfolding(crate::specs::Regular::narrowed))]
    pub fn narrow(self, part: Part, t: u8) -> Regular
        ensures { set_paper result ≡ set_paper (narrowed part t self) }
    {
        match part {
            Part::Shape => Regular {
                constructors: self.constructors.meet(ConstructorSet::singleton(t)),
                ..self
            },
            Part::Number => Regular {
                scalars: self.scalars.meet(reached_scalars(t)),
                ..self
            },
        }
    }

    // The rules without an abstract argument. Refused as the set is.
    #[tactic(auto, unfolding(crate::specs::Regular::regular_concrete))]
    pub fn concrete_only(self) -> Result<Regular, Refusal>
        ensures { regular_paper result ≡ regular_concrete self }
    {
        self.verdict()?;
        Ok(self.concrete())
    }

    // The concrete scalars alone.
    #[tactic(auto, unfolding(crate::specs::Regular::concrete_set))]
    pub fn concrete(self) -> Regular
        ensures { set_paper result ≡ set_paper (concrete_set self) }
    {
        Regular {
            scalars: self.scalars.meet(ScalarSet::CONCRETE),
            ..self
        }
    }

    // The first rule, where one constructor is left. Refused as the set is, 1 where it has no rule, 2 with several constructors, then
    // 13 where the rule has no conclusion.
    pub fn most_preferred(self) -> Result<Rule, Refusal>
        ensures { rule_paper result ≡ regular_preferred self }
    {
        if self.is_empty()? {
            return Err(Refusal::EmptySet(0));
        }
        let size = self.constructors.size()?;
        let scalar = self.scalars.most_general_scalar()?;
        self.rule(size, scalar)
    }

    // The rule whose arguments are of this constructor and this scalar. Refused 7 at 0 for an unknown constructor, at 1 for an unknown
    // scalar; then as the set is, then 13 where the rule has no conclusion.
    pub fn rule_of(self, constructor: Constructor, scalar: Scalar) -> Result<Rule, Refusal>
        ensures { rule_paper result ≡ regular_rule constructor.0 scalar.0 self }
    {
        let size = constructor.size()?;
        if Scalar::COUNT <= scalar.0 {
            return Err(Refusal::Unknown(1));
        }
        self.verdict()?;
        self.rule(size, scalar)
    }

    // The rule of a tested set whose arguments have this size and scalar.
    fn rule(self, size: ConstructorSize, scalar: Scalar) -> Result<Rule, Refusal>
        requires { self.arity ≤ most_arguments }
        ensures { rule_paper result ≡ sized_rule self size scalar.0 }
    {
        let t = size.to_inner(scalar)?;
        let result = self.conclude.conclude(t, size, scalar)?;
        let rule = Rule {
            a0: t,
            a1: t,
            a2: t,
            a3: t,
            count: self.arity,
            result,
        };
        Ok(rule.cleaned())
    }

    // All rules in order. Refused as the set is, then 13 where some rule has no conclusion.
    #[tactic(auto, using(crate::proofs::Listings::of_sets), unfolding(crate::specs::Regular::regular_listing, crate::specs::private::Tested::concluded_listing))]
    pub fn overload_list(self) -> Result<Listing, Refusal>
        ensures { listing_paper result ≡ regular_listing self }
    {
        self.verdict()?;
        self.listed()
    }

    // The types that an argument may have, in order; none at or above the arity. Refused as the set is.
    #[tactic(auto, using(crate::proofs::Listings::of_sets), unfolding(crate::specs::Regular::regular_allowed, rules::specs::Listing::accepted_types))]
    pub fn allowed_args(self, i: usize) -> Result<AllowedArgs, Refusal>
        ensures { types_paper result ≡ regular_allowed i self }
    {
        self.verdict()?;
        if usize::from(self.arity) <= i {
            return Ok(AllowedArgs {
                count: 0,
                codes: no_codes(),
            });
        }
        Ok(self.codes())
    }

    // The rules of a tested set, in order; refused 13 where one has no conclusion. That the set was tested is required: the fields of a set
    // are open, so a type for tested ones would be a copy, which two functions do not need.
    #[tactic(auto, using(crate::proofs::Listings::of_sets))]
    fn listed(self) -> Result<Listing, Refusal>
        requires { Known self }
        ensures { listing_paper result ≡ concluded_listing self }
    {
        let found = self.codes();
        let mut rules = no_rules();
        let codes = &found.codes[..usize::from(found.count)];
        for (k, code) in codes.iter().enumerate() {
            let constructor = Constructor(*code / Scalar::COUNT);
            rules[k] = self.rule_of(constructor, Scalar(*code % Scalar::COUNT))?;
        }
        Ok(Listing {
            count: found.count,
            rules,
        })
    }

    // The argument types of the rules: each constructor in turn, over each scalar in turn.
    fn codes(self) -> AllowedArgs
        requires { Known self }
        ensures { result ≡ codes_found (codes_of self) }
    {
        let mut found = AllowedArgs {
            count: 0,
            codes: no_codes(),
        };
        for bit in OneBitsIter(u64::from(self.constructors.0)) {
            put_row(&mut found, Constructor(bit.number().0), self.scalars);
        }
        found
    }
}

// Puts the types of one constructor over each scalar in turn behind those found so far.
fn put_row(found: &mut AllowedArgs, constructor: Constructor, scalars: ScalarSet)
    requires { RowFits found.old constructor.0 scalars.0 }
    ensures { found.new ≡ put found.old (map (type_code constructor.0) (bits scalar_count scalars.0)) }
{
    for bit in OneBitsIter(u64::from(scalars.0)) {
        found.codes[usize::from(found.count)] = constructor.0 * Scalar::COUNT + bit.number().0;
        found.count += 1;
    }
}

// The scalars that a type's scalar converts to; none for a type without one.
fn reached_scalars(t: u8) -> ScalarSet
    ensures { result.0 ≡ reached_scalars t }
{
    let Ok(Some(scalar)) = leaf_scalar(t) else {
        return ScalarSet::EMPTY;
    };
    ScalarSet::convertible_from(scalar)
}

impl ConclusionRule {
    // The result type of a rule whose arguments have the type, which is of this size and scalar. Refused 13 where Frexp and Modf have
    // no result.
    #[tactic(auto, unfolding(crate::specs::private::Tested::concluded_for))]
    fn conclude(self, t: u8, size: ConstructorSize, scalar: Scalar) -> Result<u8, Refusal>
        requires { inner_of size scalar.0 ≡ accepted (t ∷ []) }
        ensures { code_paper result ≡ concluded_for self size scalar.0 }
    {
        match self {
            ConclusionRule::ArgumentType => Ok(t),
            ConclusionRule::Scalar => ConstructorSize::Scalar.to_inner(scalar),
            ConclusionRule::Frexp => for_frexp_modf(Predeclared::Frexp, size, scalar),
            ConclusionRule::Modf => for_frexp_modf(Predeclared::Modf, size, scalar),
            ConclusionRule::U32 => ConstructorSize::Scalar.to_inner(Scalar::U32),
            ConclusionRule::I32 => ConstructorSize::Scalar.to_inner(Scalar::I32),
            ConclusionRule::Vec2F => ConstructorSize::VEC2.to_inner(Scalar::F32),
            ConclusionRule::Vec4F => ConstructorSize::VEC4.to_inner(Scalar::F32),
            ConclusionRule::Vec4I => ConstructorSize::VEC4.to_inner(Scalar::I32),
            ConclusionRule::Vec4U => ConstructorSize::VEC4.to_inner(Scalar::U32),
        }
    }
}

// The conclusion of a number, in the order of the crate's. Refused 7 from 10 on.
impl TryFrom<u8> for ConclusionRule {
    type Error = Refusal;

    ghost try_from_gives = { λ number r. r ≡ conclusion_from number };

    #[tactic(auto, unfolding(crate::specs::SetPaper::conclusion_from, crate::specs::SetPaper::conclusion_of))]
    fn try_from(number: u8) -> Result<ConclusionRule, Refusal> {
        match number {
            0 => Ok(ConclusionRule::ArgumentType),
            1 => Ok(ConclusionRule::Scalar),
            2 => Ok(ConclusionRule::Frexp),
            3 => Ok(ConclusionRule::Modf),
            4 => Ok(ConclusionRule::U32),
            5 => Ok(ConclusionRule::I32),
            6 => Ok(ConclusionRule::Vec2F),
            7 => Ok(ConclusionRule::Vec4F),
            8 => Ok(ConclusionRule::Vec4I),
            9 => Ok(ConclusionRule::Vec4U),
            _ => Err(Refusal::Unknown(0)),
        }
    }
}

// The number of a conclusion, in the same order.
impl From<ConclusionRule> for u8 {
    ghost from_gives = { λ conclusion number. number ≡ conclusion_number conclusion };

    fn from(conclusion: ConclusionRule) -> u8 {
        conclusion as u8
    }
}
