// A call of a built-in function's Regular set: the rule that it chooses for operands of these types.
//
// The crate's front end takes a function's set, narrows it by one argument after the other and asks for the preferred rule. Here an
// answer also has the rule's index in the function's full listing, which worksheets carry. The set stays two masks from beginning to
// end, and the index is computed from them.

ghost use Rattle.std.specs.Prelude.{◌≡◌, ◌<◌};
ghost use Rattle.calls.specs.private.CallSets.{Callable, rank};

use crate::outcome::NoRule;
use lists::Chosen;
use regular::Regular;
use rules::Part;
use scalars::{OneBitsIter, Scalar};
use types::Constructor;

// A set without unknown bits and with a conclusion for each rule, as each function's is.
#[derive(Clone, Copy)]
pub(crate) struct FullSet {
    pub(crate) set: Regular,
    ghost callable: { Callable set },
}

impl FullSet {
    ghost use Rattle.scalars.specs.Mask.{bits};
    ghost use Rattle.scalars.specs.Domain.{scalar_count};
    ghost use Rattle.types.specs.Domain.{constructor_count};
    ghost use Rattle.regular.specs.Regular.{regular_rules};
    ghost use Rattle.regular.specs.private.Tested.{Known};
    ghost use Rattle.calls.specs.Choice.{resolve};
    ghost use Rattle.calls.specs.Call.{answered};
    ghost use Rattle.calls.specs.OutcomePaper.{outcome_paper};
    ghost use Rattle.calls.specs.private.CallSets.{place_in, indexed_rule, preferred_in};

    // The rule that the set chooses: the first of what its steps leave. Operands and switch are two parameters, as `outcome_of` is handed them.
    pub(crate) fn call(self, operands: &[u8], switch: bool) -> Result<Chosen, NoRule>
        ensures { outcome_paper result ≡ answered (resolve switch (regular_rules self.set) operands.now) }
    {
        if operands.len() != usize::from(self.set.arity) {
            return Err(NoRule::WrongCount);
        }
        let mut left = self.set;
        for (i, operand) in operands.iter().enumerate() {
            left = left.narrow(Part::Shape, *operand);
            if left.holds_none() {
                return Err(NoRule::NoneAfter(Part::Shape, i));
            }
            left = left.narrow(Part::Number, *operand);
            if left.holds_none() {
                return Err(NoRule::NoneAfter(Part::Number, i));
            }
        }
        if switch {
            return self.preferred(left.concrete());
        }
        self.preferred(left)
    }

    // The first of the rules that are left: the lowest constructor over the lowest scalar. That these are known is required: the fields of a set
    // are open, so no type says it of what the steps left.
    fn preferred(self, left: Regular) -> Result<Chosen, NoRule>
        requires { Known left }
        ensures { outcome_paper result ≡ preferred_in self.set (bits constructor_count left.constructors.0) (bits scalar_count left.scalars.0) }
    {
        let Ok(scalar) = left.scalars.most_general_scalar() else {
            return Err(NoRule::NoneConcrete);
        };
        let Some(bit) = OneBitsIter(u64::from(left.constructors.0)).next() else {
            return Err(NoRule::NoneConcrete);
        };
        self.chosen(Constructor(bit.number().0), scalar)
    }

    // The rule of a constructor and a scalar, with its index in the full listing. A rule without a conclusion is none; each rule of a
    // function's set has one.
    fn chosen(self, constructor: Constructor, scalar: Scalar) -> Result<Chosen, NoRule>
        requires { (constructor.0 < constructor_count) × (scalar.0 < scalar_count) }
        ensures { outcome_paper result ≡ indexed_rule self.set constructor.0 scalar.0 }
    {
        let Ok(rule) = self.set.rule_of(constructor, scalar) else {
            return Err(NoRule::NoneConcrete);
        };
        Ok(Chosen {
            index: self.place(constructor, scalar),
            rule,
        })
    }

    // The index of a constructor's and scalar's rule in the full listing: the rows before its own, and its place in that row.
    fn place(self, constructor: Constructor, scalar: Scalar) -> u8
        requires { (constructor.0 < constructor_count) × (scalar.0 < scalar_count) }
        ensures { result ≡ place_in self.set constructor.0 scalar.0 }
    {
        let row = self.set.scalars.0.count_ones();
        let rows = below(self.set.constructors.0, constructor.0);
        let before = below(self.set.scalars.0, scalar.0);
        (rows * row + before) as u8
    }
}

// How many bits of a mask come before the one of this number.
fn below(mask: u16, number: u8) -> u32
    requires { number < 16 }
    ensures { result ≡ rank number mask }
{
    (mask % (1 << number)).count_ones()
}
