// A set of either kind, so that callers need not know which: naga's own form, an enum whose methods ask the kind.
//
// A set has its kind's values, 0 before a Regular set's and 1 before a List's. A refusal is an `Err`, which carries no set; its values are those
// of the empty set of the kind that was asked.

ghost use Rattle.std.specs.Prelude.{◌≡◌};
ghost use Rattle.scalars.specs.Paper.{test_paper, count_paper};
ghost use Rattle.rules.specs.RulePaper.{rule_paper, listing_paper, types_paper};
ghost use Rattle.lists.specs.AnyPaper.{any_paper, no_regular, no_list, none_like};
ghost use Rattle.regular.specs.Regular.{checked_regular, regular_empty, regular_count, regular_arg, regular_concrete, regular_preferred, regular_listing, regular_allowed};
ghost use Rattle.lists.specs.List.{checked_list, list_empty, list_count, list_arg, list_step, list_preferred, list_listing, list_allowed};
ghost use Rattle.rules.specs.declared.rule.Keep.TheVariants as keep;
ghost use Rattle.lists.specs.AnyOverloadSet.{of_regular, of_list, by_set, alone};

use crate::list::List;
use regular::Regular;
use rules::{AllowedArgs, Listing, Part, Rule};
use scalars::Refusal;

#[derive(Clone, Copy)]
pub enum AnyOverloadSet {
    Regular(Regular),
    List(List),
}

impl AnyOverloadSet {
    // A Regular set as a set of either kind, refused as its verdict is.
    pub fn from_regular(set: Regular) -> Result<AnyOverloadSet, Refusal>
        ensures { any_paper no_regular result ≡ of_regular (checked_regular set) }
    {
        set.verdict()?;
        Ok(AnyOverloadSet::Regular(set))
    }

    // A List as a set of either kind, tested as `checked` does, with 255 in what is not in use.
    pub fn from_list(list: List) -> Result<AnyOverloadSet, Refusal>
        ensures { any_paper no_list result ≡ of_list (checked_list list) }
    {
        Ok(AnyOverloadSet::List(list.checked()?))
    }

    // Whether the set has no rule, as its kind answers.
    pub fn is_empty(self) -> Result<bool, Refusal>
        ensures { test_paper result ≡ by_set regular_empty list_empty self }
    {
        match self {
            AnyOverloadSet::Regular(set) => set.is_empty(),
            AnyOverloadSet::List(list) => list.is_empty(),
        }
    }

    // The least number of arguments, as its kind answers.
    pub fn min_arguments(self) -> Result<u8, Refusal>
        ensures { count_paper result ≡ by_set regular_count list_count self }
    {
        match self {
            AnyOverloadSet::Regular(set) => set.min_arguments(),
            AnyOverloadSet::List(list) => list.min_arguments(),
        }
    }

    // The most arguments, as its kind answers.
    pub fn max_arguments(self) -> Result<u8, Refusal>
        ensures { count_paper result ≡ by_set regular_count list_count self }
    {
        match self {
            AnyOverloadSet::Regular(set) => set.max_arguments(),
            AnyOverloadSet::List(list) => list.max_arguments(),
        }
    }

    // The rules whose type at an argument fits a part of this one, as its kind answers.
    pub fn arg(self, part: Part, i: usize, t: u8) -> Result<AnyOverloadSet, Refusal>
        ensures { any_paper (none_like self) result ≡ by_set (λ r. of_regular (regular_arg part i t r)) (λ l. of_list (list_arg part i t l)) self }
    {
        match self {
            AnyOverloadSet::Regular(set) => Ok(AnyOverloadSet::Regular(set.arg(part, i, t)?)),
            AnyOverloadSet::List(list) => Ok(AnyOverloadSet::List(list.arg(part, i, t)?)),
        }
    }

    // The rules without an abstract argument, as its kind answers.
    pub fn concrete_only(self) -> Result<AnyOverloadSet, Refusal>
        ensures { any_paper (none_like self) result ≡ by_set (λ r. of_regular (regular_concrete r)) (λ l. of_list (list_step keep.Concrete l)) self }
    {
        match self {
            AnyOverloadSet::Regular(set) => Ok(AnyOverloadSet::Regular(set.concrete_only()?)),
            AnyOverloadSet::List(list) => Ok(AnyOverloadSet::List(list.concrete_only()?)),
        }
    }

    // The preferred rule, as its kind answers; a List's without its index.
    pub fn most_preferred(self) -> Result<Rule, Refusal>
        ensures { rule_paper result ≡ by_set regular_preferred (λ l. alone (list_preferred l)) self }
    {
        match self {
            AnyOverloadSet::Regular(set) => set.most_preferred(),
            AnyOverloadSet::List(list) => Ok(list.most_preferred()?.rule),
        }
    }

    // The rules in order, as its kind answers.
    pub fn overload_list(self) -> Result<Listing, Refusal>
        ensures { listing_paper result ≡ by_set regular_listing list_listing self }
    {
        match self {
            AnyOverloadSet::Regular(set) => set.overload_list(),
            AnyOverloadSet::List(list) => list.overload_list(),
        }
    }

    // The types that an argument may have, as its kind answers.
    pub fn allowed_args(self, i: usize) -> Result<AllowedArgs, Refusal>
        ensures { types_paper result ≡ by_set (regular_allowed i) (list_allowed i) self }
    {
        match self {
            AnyOverloadSet::Regular(set) => set.allowed_args(i),
            AnyOverloadSet::List(list) => list.allowed_args(i),
        }
    }
}
