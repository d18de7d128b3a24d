// A List that was tested, and the walks that need one: over its members, lowest bit first, as those over any List are.

ghost use Rattle.std.specs.Prelude.{Ok, ◌≡◌};
ghost use Rattle.rules.specs.Listing.{accepted_listing};
ghost use Rattle.rules.specs.RulePaper.{listing_paper, types_paper};
ghost use Rattle.lists.specs.ChosenPaper.{chosen_paper};
ghost use Rattle.lists.specs.List.{preferred_of, allowed_of, listing, entries};
ghost use Rattle.lists.specs.private.Tested.{Valid};

use crate::list::{Chosen, List};
use rules::{AllowedArgs, Listing, no_codes, no_rules};
use scalars::{OneBitsIter, Refusal};

// No more rules than a List takes, each member one of them, and 255 in what is not in use.
#[derive(Clone, Copy)]
pub(crate) struct TestedList {
    pub(crate) list: List,
    ghost valid: { Valid list },
}

impl TestedList {
    // The first member. Refused 1 where no member is left.
    pub(crate) fn first(self) -> Result<Chosen, Refusal>
        ensures { chosen_paper result ≡ preferred_of (entries self.list) }
    {
        match OneBitsIter(self.list.members).next() {
            None => Err(Refusal::EmptySet(0)),
            Some(bit) => {
                let number = bit.number();
                Ok(Chosen {
                    index: number.0,
                    rule: self.list.rule(number),
                })
            }
        }
    }

    // The members' rules. Their count is also the place of the next.
    pub(crate) fn listed(self) -> Listing
        ensures { listing_paper (Ok result) ≡ accepted_listing (listing self.list) }
    {
        let mut rules = no_rules();
        let mut count: u8 = 0;
        for bit in OneBitsIter(self.list.members) {
            rules[usize::from(count)] = self.list.rule(bit.number());
            count += 1;
        }
        Listing { count, rules }
    }

    // The members' types at an argument. Refused 4 where some member lacks that argument. A walk of its own beside `listed`, which is never
    // refused and writes rules.
    pub(crate) fn allowed(self, i: usize) -> Result<AllowedArgs, Refusal>
        ensures { types_paper result ≡ allowed_of i (listing self.list) }
    {
        let mut codes = no_codes();
        let mut count: u8 = 0;
        for bit in OneBitsIter(self.list.members) {
            let rule = self.list.rule(bit.number());
            if usize::from(rule.count) <= i {
                return Err(Refusal::NoSuchArgument(i));
            }
            codes[usize::from(count)] = rule.argument(i);
            count += 1;
        }
        Ok(AllowedArgs { count, codes })
    }
}
