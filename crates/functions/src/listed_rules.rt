// The rules of the seven functions that have a List.
//
// The crate writes them out from nested sequences of scalars and sizes. Here a rule is a function of its place in its List: division
// and remainder by the lengths of the sequences give the place of each part in its own.

ghost use Rattle.std.specs.Prelude.{map, ◌≡◌, ◌<◌, length, get_or};
ghost use Rattle.rules.specs.Rule.{rule_of, blank_rule};
ghost use Rattle.functions.specs.ListedRules.{listed_rules};

use crate::utils::{
    CONCRETE_FLOATS, CONCRETE_INTS, FLOATS, SHAPES, SIZES, concrete_int_scalars, float_scalars,
    float_scalars_unimplemented_abstract, matrix, scalar_or_vecn, vector, vector_sizes,
};
use rules::Rule;
use scalars::{Scalar, UNUSED};

// Mix has two rules for each type: of a ratio of that type, and of a scalar one.
const RATIOS: u8 = 2;

// The functions that have a List. Data: a definition speaks of a function by its case.
#[derive(Clone, Copy)]
pub enum ListFunction {
    Ldexp,
    Outer,
    Refract,
    Mix,
    Transpose,
    ExtractBits,
    InsertBits,
}

// How many rules a List has.
#[tactic(auto, unfolding(crate::specs::ListedRules::listed_rules, crate::specs::Sequences::float_scalars, crate::specs::Sequences::concrete_float_scalars, crate::specs::Sequences::concrete_int_scalars, crate::specs::Sequences::vector_sizes, crate::specs::Sequences::scalar_or_vecn))]
pub fn rule_count(listed: ListFunction) -> u8
    ensures { result ≡ length (listed_rules listed) }
{
    match listed {
        ListFunction::Ldexp => CONCRETE_FLOATS * SHAPES,
        ListFunction::Outer => SIZES * SIZES * CONCRETE_FLOATS,
        ListFunction::Refract => SIZES * CONCRETE_FLOATS,
        ListFunction::Mix => FLOATS * SHAPES * RATIOS,
        ListFunction::Transpose => SIZES * SIZES * FLOATS,
        ListFunction::ExtractBits => CONCRETE_INTS * SHAPES,
        ListFunction::InsertBits => CONCRETE_INTS * SHAPES,
    }
}

// The rule at a place of a List; BLANK behind the last one.
#[tactic(auto, using(crate::proofs::Places::within, crate::proofs::Places::behind))]
pub fn listed_rule(listed: ListFunction, k: u8) -> Rule
    ensures { result ≡ get_or (map rule_of (listed_rules listed)) k blank_rule }
{
    if rule_count(listed) <= k {
        return Rule::BLANK;
    }
    match listed {
        ListFunction::Ldexp => ldexp(k),
        ListFunction::Outer => outer(k),
        ListFunction::Refract => refract(k),
        ListFunction::Mix => mix(k),
        ListFunction::Transpose => transpose(k),
        ListFunction::ExtractBits => extract_bits(k),
        ListFunction::InsertBits => insert_bits(k),
    }
}

// One function for each List, since each has arguments of its own.
//
// The mantissa may be of any floating-point type; the exponent is its integer counterpart.
#[tactic(auto, using(crate::proofs::Places::ldexp_at))]
fn ldexp(k: u8) -> Rule
    requires { k < length (listed_rules ListFunction.Ldexp) }
    ensures { result ≡ get_or (map rule_of (listed_rules ListFunction.Ldexp)) k blank_rule }
{
    let mantissa = scalar_or_vecn(float_scalars_unimplemented_abstract(k / SHAPES), k % SHAPES);
    let exponent = scalar_or_vecn(Scalar::I32, k % SHAPES);
    Rule {
        a0: mantissa,
        a1: exponent,
        a2: UNUSED,
        a3: UNUSED,
        count: 2,
        result: mantissa,
    }
}

// The result takes its columns from the left operand and its rows from the right one.
#[tactic(auto, using(crate::proofs::Places::outer_at))]
fn outer(k: u8) -> Rule
    requires { k < length (listed_rules ListFunction.Outer) }
    ensures { result ≡ get_or (map rule_of (listed_rules ListFunction.Outer)) k blank_rule }
{
    let columns = vector_sizes(k / CONCRETE_FLOATS / SIZES);
    let rows = vector_sizes(k / CONCRETE_FLOATS % SIZES);
    let scalar = float_scalars_unimplemented_abstract(k % CONCRETE_FLOATS);
    Rule {
        a0: vector(columns, scalar),
        a1: vector(rows, scalar),
        a2: UNUSED,
        a3: UNUSED,
        count: 2,
        result: matrix(columns, rows, scalar),
    }
}

// The ratio has the operands' scalar.
#[tactic(auto, using(crate::proofs::Places::refract_at))]
fn refract(k: u8) -> Rule
    requires { k < length (listed_rules ListFunction.Refract) }
    ensures { result ≡ get_or (map rule_of (listed_rules ListFunction.Refract)) k blank_rule }
{
    let scalar = float_scalars_unimplemented_abstract(k % CONCRETE_FLOATS);
    let incident = vector(vector_sizes(k / CONCRETE_FLOATS), scalar);
    Rule {
        a0: incident,
        a1: incident,
        a2: scalar.0,
        a3: UNUSED,
        count: 3,
        result: incident,
    }
}

// The ratio has the type of the operands, or their scalar: for scalars these are the same rule, listed twice as in the crate.
#[tactic(auto, using(crate::proofs::Places::mix_even, crate::proofs::Places::mix_odd))]
fn mix(k: u8) -> Rule
    requires { k < length (listed_rules ListFunction.Mix) }
    ensures { result ≡ get_or (map rule_of (listed_rules ListFunction.Mix)) k blank_rule }
{
    let scalar = float_scalars(k / RATIOS / SHAPES);
    let input = scalar_or_vecn(scalar, k / RATIOS % SHAPES);
    let ratio = if k % RATIOS == 0 { input } else { scalar.0 };
    Rule {
        a0: input,
        a1: input,
        a2: ratio,
        a3: UNUSED,
        count: 3,
        result: input,
    }
}

// The result swaps columns and rows.
#[tactic(auto, using(crate::proofs::Places::transpose_at))]
fn transpose(k: u8) -> Rule
    requires { k < length (listed_rules ListFunction.Transpose) }
    ensures { result ≡ get_or (map rule_of (listed_rules ListFunction.Transpose)) k blank_rule }
{
    let columns = vector_sizes(k / FLOATS / SIZES);
    let rows = vector_sizes(k / FLOATS % SIZES);
    let scalar = float_scalars(k % FLOATS);
    Rule {
        a0: matrix(columns, rows, scalar),
        a1: UNUSED,
        a2: UNUSED,
        a3: UNUSED,
        count: 1,
        result: matrix(rows, columns, scalar),
    }
}

// The offset and the count are U32.
#[tactic(auto, using(crate::proofs::Places::extract_at))]
fn extract_bits(k: u8) -> Rule
    requires { k < length (listed_rules ListFunction.ExtractBits) }
    ensures { result ≡ get_or (map rule_of (listed_rules ListFunction.ExtractBits)) k blank_rule }
{
    let input = scalar_or_vecn(concrete_int_scalars(k / SHAPES), k % SHAPES);
    Rule {
        a0: input,
        a1: Scalar::U32.0,
        a2: Scalar::U32.0,
        a3: UNUSED,
        count: 3,
        result: input,
    }
}

// The offset and the count are U32.
#[tactic(auto, using(crate::proofs::Places::insert_at))]
fn insert_bits(k: u8) -> Rule
    requires { k < length (listed_rules ListFunction.InsertBits) }
    ensures { result ≡ get_or (map rule_of (listed_rules ListFunction.InsertBits)) k blank_rule }
{
    let input = scalar_or_vecn(concrete_int_scalars(k / SHAPES), k % SHAPES);
    Rule {
        a0: input,
        a1: input,
        a2: Scalar::U32.0,
        a3: Scalar::U32.0,
        count: 4,
        result: input,
    }
}
