// A Regular set made by hand, by its arity, its two masks and the number of its conclusion. Each question first refuses 7 for an unknown
// conclusion; the set's own tests follow.

ghost use Rattle.std.specs.Prelude.{◌≡◌};
ghost use Rattle.rules.specs.RulePaper.{rule_paper, no_rule};
ghost use Rattle.regular.specs.Regular.{checked_regular, regular_arg, regular_concrete, regular_preferred};
ghost use Rattle.regular.specs.SetPaper.{set_paper, regular_paper, no_set};
ghost use Rattle.c_sets.specs.Sets.{of_regular, regular_rule_at};

use regular::{ConclusionRule, Regular};
use rules::{Part, Rule};
use scalars::{Refusal, ScalarSet};
use types::ConstructorSet;

#[derive(Clone, Copy)]
pub struct RegularParts {
    pub arity: u8,
    pub constructors: ConstructorSet,
    pub scalars: ScalarSet,
    // The number of the conclusion.
    pub conclusion: u8,
}

impl RegularParts {
    // The set itself. Refused as `Regular::verdict` is; a set of either kind is made by the same two lines, since a `checked` of
    // `Regular` would be one more public promise.
    pub fn set(self) -> Result<Regular, Refusal>
        ensures { regular_paper result ≡ of_regular self.arity self.constructors.0 self.scalars.0 self.conclusion checked_regular no_set }
    {
        let set = self.handed_in()?;
        set.verdict()?;
        Ok(set)
    }

    // The set that a part of an argument's type leaves. Refused as `Regular::arg` is.
    pub fn arg(self, part: Part, index: usize, code: u8) -> Result<Regular, Refusal>
        ensures { regular_paper result ≡ of_regular self.arity self.constructors.0 self.scalars.0 self.conclusion (regular_arg part index code) no_set }
    {
        self.handed_in()?.arg(part, index, code)
    }

    // The set without its abstract scalars. Refused as `Regular::concrete_only` is.
    pub fn concrete_only(self) -> Result<Regular, Refusal>
        ensures { regular_paper result ≡ of_regular self.arity self.constructors.0 self.scalars.0 self.conclusion regular_concrete no_set }
    {
        self.handed_in()?.concrete_only()
    }

    // The preferred rule. Refused as `Regular::most_preferred` is.
    pub fn preferred(self) -> Result<Rule, Refusal>
        ensures { rule_paper result ≡ of_regular self.arity self.constructors.0 self.scalars.0 self.conclusion regular_preferred no_rule }
    {
        self.handed_in()?.most_preferred()
    }

    // The rule at an index of the set's listing. Refused as `Regular::overload_list` is, then 7 at 1 for an unknown index.
    pub fn rule(self, index: u8) -> Result<Rule, Refusal>
        ensures { rule_paper result ≡ of_regular self.arity self.constructors.0 self.scalars.0 self.conclusion (regular_rule_at index) no_rule }
    {
        listed_at(self.handed_in()?, index)
    }

    // The set of these parts, with no test but that of the conclusion.
    fn handed_in(self) -> Result<Regular, Refusal>
        ensures { regular_paper result ≡ of_regular self.arity self.constructors.0 self.scalars.0 self.conclusion set_paper no_set }
    {
        Ok(Regular {
            arity: self.arity,
            constructors: self.constructors,
            scalars: self.scalars,
            conclude: ConclusionRule::try_from(self.conclusion)?,
        })
    }
}

// The rule at an index of a set's listing.
fn listed_at(set: Regular, index: u8) -> Result<Rule, Refusal>
    ensures { rule_paper result ≡ regular_rule_at index set }
{
    let listing = set.overload_list()?;
    if listing.count <= index {
        return Err(Refusal::Unknown(1));
    }
    Ok(listing.rules[usize::from(index)])
}
