// What a set lists: its rules in order, or the types that they allow at one argument. A Regular set of every constructor and every
// scalar lists as many as there are value types; nothing is put on a heap, so that many entries stand beside the count, and those not
// in use hold `UNUSED`.

ghost use Rattle.std.specs.Prelude.{◌≡◌, replicate};
ghost use Rattle.rules.specs.Rule.{blank_rule};
ghost use Rattle.scalars.specs.Paper.{unused};
ghost use Rattle.rules.specs.Listing.{most_listed};

use crate::rule::Rule;
use scalars::UNUSED;
use types::VALUES;

// The most rules that a set lists.
pub const LONGEST_LISTING: usize = VALUES as usize;

// How many rules there are, and the rules, in order.
#[derive(Clone, Copy)]
pub struct Listing {
    pub count: u8,
    pub rules: [Rule; LONGEST_LISTING],
}

// How many types there are, and the type codes, in the order of their rules.
#[derive(Clone, Copy)]
pub struct AllowedArgs {
    pub count: u8,
    pub codes: [u8; LONGEST_LISTING],
}

// Entries that are not in use. Functions of their own, so that no caller's proof has all the entries in it; two, since each promises its own
// entry.
pub fn no_rules() -> [Rule; LONGEST_LISTING]
    ensures { result ≡ replicate most_listed blank_rule }
{
    [Rule::BLANK; LONGEST_LISTING]
}

pub fn no_codes() -> [u8; LONGEST_LISTING]
    ensures { result ≡ replicate most_listed unused }
{
    [UNUSED; LONGEST_LISTING]
}
