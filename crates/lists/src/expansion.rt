// A Regular set written out as a List: every rule a record, in the same order. The two kinds of set then answer alike.

ghost use Rattle.std.specs.Prelude.{◌≡◌, take};
ghost use Rattle.lists.specs.ChosenPaper.{list_paper};
ghost use Rattle.lists.specs.Expansion.{expanded};
ghost use Rattle.lists.specs.List.{most_rules};

use crate::list::{List, MOST_RULES, len_to_full_mask};
use regular::Regular;
use rules::{LONGEST_LISTING, Rule};
use scalars::Refusal;

// The List of a Regular set's rules. Refused as the set is, then 3 for more than 63 rules, then 13 where one has no conclusion.
pub fn expand(set: Regular) -> Result<List, Refusal>
    ensures { list_paper result ≡ expanded set }
{
    set.verdict()?;
    let n = (set.constructors.0.count_ones() * set.scalars.0.count_ones()) as usize;
    if MOST_RULES < n {
        return Err(Refusal::TooMany);
    }
    let listing = set.overload_list()?;
    Ok(List {
        rules: front(&listing.rules),
        len: n,
        members: len_to_full_mask(n),
    })
}

// The first rules of a listing, as many as a List takes.
fn front(rules: &[Rule; LONGEST_LISTING]) -> [Rule; MOST_RULES]
    ensures { result ≡ take most_rules rules.now }
{
    let mut out = [Rule::BLANK; MOST_RULES];
    out.copy_from_slice(&rules[..MOST_RULES]);
    out
}
