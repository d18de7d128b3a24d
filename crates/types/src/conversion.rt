// Conversion of scalars, their combination, and the consensus of several components.
//
// The crate has these in `Scalar` (`type_methods.rs`) and in the front end's `automatic_conversion_consensus` (`conversion.rs`).
// Combination is a table of constants, one entry for each ordered pair, whose rule against conversion is proved over all entries. It is
// made once for each question and lent from there, since a constant is made anew wherever it is used. Beside its scalar each answer here
// says who gave it, which the crate does not.

ghost use Rattle.std.specs.Prelude.{◌≡◌, ◌<◌, ◌≤◌, [], Ok, Some, None, drop, length};
ghost use Rattle.scalars.specs.Domain.{scalar_count};
ghost use Rattle.scalars.specs.Paper.{accepted, verdict_paper, test_paper};
ghost use Rattle.types.specs.TypePaper.{side_number, combination_paper, giver_values, consensus_paper};
ghost use Rattle.types.specs.Conversion.{converts_to, combined, combine_of, if_known_all, consensus_of};
ghost use Rattle.types.specs.private.Agreeing.{combinations, agree_from, giver_after, giver_in};

use crate::type_code::{LAST_CODE, both_known, scalar_of};
use scalars::{Refusal, Scalar, ScalarSet};

// Which of two scalars gave their combination: the left one, if they are equal.
#[derive(Clone, Copy)]
pub enum Side {
    Left,
    Right,
}

// The scalar of a consensus, and the component that gave it: the first one whose scalar it is, by its index. None gave it where the
// scalar already was the base's.
#[derive(Clone, Copy)]
pub struct Consensus {
    pub scalar: Scalar,
    pub component: Option<usize>,
}

// How many scalars there are, which is a row of the table below, and how many ordered pairs of them.
const ROW: usize = Scalar::COUNT as usize;

const PAIRS: usize = ROW * ROW;

// No scalar, in the table below. Its entries are bytes: of `Option`s it would be twice as large, and no plainer to read.
const NONE: u8 = 255;

// The combination of scalars a and b, at `ROW` x a + b: the one that the other converts to, or NONE. A row for each a.
const COMBINED: [u8; PAIRS] = [
    // ABSTRACT_INT
    0, 1, 2, 3, 4, 5, 6, 7, 8, 9, 10, NONE,
    // ABSTRACT_FLOAT
    1, 1, NONE, NONE, NONE, NONE, NONE, NONE, 8, 9, 10, NONE,
    // I32
    2, NONE, 2, NONE, NONE, NONE, NONE, NONE, NONE, NONE, NONE, NONE,
    // I16
    3, NONE, NONE, 3, NONE, NONE, NONE, NONE, NONE, NONE, NONE, NONE,
    // I64
    4, NONE, NONE, NONE, 4, NONE, NONE, NONE, NONE, NONE, NONE, NONE,
    // U32
    5, NONE, NONE, NONE, NONE, 5, NONE, NONE, NONE, NONE, NONE, NONE,
    // U16
    6, NONE, NONE, NONE, NONE, NONE, 6, NONE, NONE, NONE, NONE, NONE,
    // U64
    7, NONE, NONE, NONE, NONE, NONE, NONE, 7, NONE, NONE, NONE, NONE,
    // F32
    8, 8, NONE, NONE, NONE, NONE, NONE, NONE, 8, NONE, NONE, NONE,
    // F16
    9, 9, NONE, NONE, NONE, NONE, NONE, NONE, NONE, 9, NONE, NONE,
    // F64
    10, 10, NONE, NONE, NONE, NONE, NONE, NONE, NONE, NONE, 10, NONE,
    // BOOL
    NONE, NONE, NONE, NONE, NONE, NONE, NONE, NONE, NONE, NONE, NONE, 11,
];

// Whether the first scalar converts to the second. Refused 7 for an unknown scalar, at 0, then at 1.
pub fn automatically_converts_to(from: Scalar, to: Scalar) -> Result<bool, Refusal>
    ensures { test_paper result ≡ converts_to from.0 to.0 }
{
    both_known(from.0 < Scalar::COUNT, to.0 < Scalar::COUNT)?;
    Ok(ScalarSet::convertible_from(from).contains(to))
}

// The table, to be lent.
fn table() -> [u8; PAIRS]
    ensures { result ≡ combinations }
{
    COMBINED
}

// The combination of two known scalars by the lent table.
fn combine_by(table: &[u8], a: Scalar, b: Scalar) -> Option<(Scalar, Side)>
    requires { (table.now ≡ combinations) × (a.0 < scalar_count) × (b.0 < scalar_count) }
    ensures { combination_paper (Ok result) ≡ combined a.0 b.0 }
{
    // Each is widened first: `agree_from` waits for this place at every turn, and a sum of bytes is cut to a byte before it is one.
    let c = table[usize::from(a.0) * ROW + usize::from(b.0)];
    if c == NONE {
        return None;
    }
    if c == a.0 {
        return Some((a, Side::Left));
    }
    Some((b, Side::Right))
}

// The one of two scalars that the other converts to, and the side that gave it, or nothing. Refused 7 at 0, then at 1, for an unknown
// scalar.
pub fn automatic_conversion_combine(a: Scalar, b: Scalar) -> Result<Option<(Scalar, Side)>, Refusal>
    ensures { combination_paper result ≡ combine_of a.0 b.0 }
{
    both_known(a.0 < Scalar::COUNT, b.0 < Scalar::COUNT)?;
    Ok(combine_by(&table(), a, b))
}

// The scalar that the base, if there is one, and all components convert to, and who gave it. Refused 7 at 0 for an unknown base, at 1 +
// index for an unknown component; 11 with neither base nor components; 12 at the first component with no scalar or no combination.
pub fn automatic_conversion_consensus(
    base: Option<Scalar>,
    components: &[u8],
) -> Result<Consensus, Refusal>
    ensures { consensus_paper result ≡ consensus_of base components.now }
{
    match base {
        Some(scalar) => consensus_with(scalar, components),
        None => consensus_without(components),
    }
}

// The consensus with a base.
fn consensus_with(base: Scalar, components: &[u8]) -> Result<Consensus, Refusal>
    ensures { consensus_paper result ≡ consensus_of (Some base) components.now }
{
    if Scalar::COUNT <= base.0 {
        return Err(Refusal::Unknown(0));
    }
    all_known(components)?;
    agree_from(components, 0, base, components.len())
}

// The consensus with the first component as its base.
fn consensus_without(components: &[u8]) -> Result<Consensus, Refusal>
    ensures { consensus_paper result ≡ consensus_of None components.now }
{
    all_known(components)?;
    let [first, ..] = components else {
        return Err(Refusal::NothingToCombine);
    };
    let Some(scalar) = scalar_of(*first) else {
        return Err(Refusal::NoConsensus(0));
    };
    agree_from(components, 1, scalar, 0)
}

// Whether each component's type is known. Refused 7 at 1 + the index of the first that is not.
fn all_known(components: &[u8]) -> Result<(), Refusal>
    ensures { verdict_paper result ≡ if_known_all components.now [] (accepted []) }
{
    match components.iter().position(|code| LAST_CODE < *code) {
        Some(first) => Err(Refusal::Unknown(1 + first)),
        None => Ok(()),
    }
}

// The consensus of `base` and the components from `start` on, each named and blamed by its own index. `by` is the component that gave the
// base; the number of components stands for none. On its way through the loop the giver is a number: an `Option`'s padding is copied in
// pieces at every turn, and each load then waits for the store before it.
fn agree_from(
    components: &[u8],
    start: usize,
    base: Scalar,
    by: usize,
) -> Result<Consensus, Refusal>
    requires { (base.0 < scalar_count) × (start ≤ length components.now) }
    ensures { consensus_paper result ≡ agree_from base.0 (giver_in (length components.now) by) start (drop start components.now) }
{
    let lent = table();
    let mut best = base;
    let mut giver = by;
    // Over indices, which name the giver and the component at fault.
    for i in start..components.len() {
        let Some(scalar) = scalar_of(components[i]) else {
            return Err(Refusal::NoConsensus(i));
        };
        let Some((next, side)) = combine_by(&lent, best, scalar) else {
            return Err(Refusal::NoConsensus(i));
        };
        best = next;
        giver = giver_after(giver, side, i);
    }
    Ok(Consensus {
        scalar: best,
        component: giver_in(components.len(), giver),
    })
}

// Which component gave the best, once component i is combined with it: i itself, where the right side gives the combination.
fn giver_after(giver: usize, side: Side, i: usize) -> usize
    ensures { result ≡ giver_after giver (side_number side) i }
{
    match side {
        Side::Left => giver,
        Side::Right => i,
    }
}

// The giver by its number among so many components: behind the last stands the base.
fn giver_in(count: usize, giver: usize) -> Option<usize>
    ensures { giver_values result ≡ giver_in count giver }
{
    (giver != count).then_some(giver)
}
