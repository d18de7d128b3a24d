// The number that stands for a type, in place of the crate's `TypeInner` in an arena.
//
// A value type is 12 x constructor + scalar, 0 to 155. 156 is an array, a pointer or a texture: it has no scalar and matches no
// rule. 157 to 180 occur only as results: what Modf and Frexp answer, by constructor and scalar. Codes are plain bytes, since they arrive
// in lent slices, stand in a rule's fields and are exported to C.

ghost use Rattle.std.specs.Prelude.{◌≡◌, ◌≤◌, ◌<◌, []};
ghost use Rattle.std.specs.Option.{MatchOption};
ghost use Rattle.scalars.specs.Paper.{accepted, verdict_paper};
ghost use Rattle.types.specs.Domain.{is_abstract, other_type, scalar_part};
ghost use Rattle.types.specs.TypePaper.{code_paper, leaf_paper};
ghost use Rattle.types.specs.TypeCode.{code_of, value_code, predeclared_code, if_both, leaf_scalar, first_frexp};

use crate::constructor_set::{Constructor, FIRST_MATRIX};
use scalars::{Refusal, Scalar};

// How many codes are value types; the first code that is not one stands for every other type.
pub const VALUES: u8 = Constructor::COUNT * Scalar::COUNT;

// Modf and Frexp answer for scalars and vectors of the three concrete floats: the first code of either, and the last of all.
const MODF: u8 = VALUES + 1;

const FREXP: u8 = MODF + FIRST_MATRIX * FLOATS;

pub const LAST_CODE: u8 = FREXP + FIRST_MATRIX * FLOATS - 1;

const FIRST_FLOAT: u8 = Scalar::F32.0;

const LAST_FLOAT: u8 = Scalar::F64.0;

const FLOATS: u8 = LAST_FLOAT - FIRST_FLOAT + 1;

// What a type code stands for.
#[derive(Clone, Copy)]
pub enum TypeParts {
    Value(Constructor, Scalar),
    Other,
    Modf(Constructor, Scalar),
    Frexp(Constructor, Scalar),
}

// The code of the parts. Refused 7 at 0 for an unknown constructor, at 1 for an unknown scalar; then 13 for what Modf and Frexp
// do not answer.
pub fn code_of(parts: TypeParts) -> Result<u8, Refusal>
    ensures { code_paper result ≡ code_of parts }
{
    match parts {
        TypeParts::Value(constructor, scalar) => value_code(constructor, scalar),
        TypeParts::Other => Ok(VALUES),
        TypeParts::Modf(constructor, scalar) => predeclared_code(MODF, constructor, scalar),
        TypeParts::Frexp(constructor, scalar) => predeclared_code(FREXP, constructor, scalar),
    }
}

// The code of a value type. Constructor and scalar are two parameters, here and wherever a type is made: each is refused at its own place.
pub(crate) fn value_code(constructor: Constructor, scalar: Scalar) -> Result<u8, Refusal>
    ensures { code_paper result ≡ value_code constructor.0 scalar.0 }
{
    let k = constructor.0;
    let s = scalar.0;
    both_known(k < Constructor::COUNT, s < Scalar::COUNT)?;
    Ok(k * Scalar::COUNT + s)
}

// The code of what Modf or Frexp answers, of which `first` is the first: for scalars and vectors of F32, F16 and F64.
fn predeclared_code(first: u8, constructor: Constructor, scalar: Scalar) -> Result<u8, Refusal>
    requires { first ≤ first_frexp }
    ensures { code_paper result ≡ predeclared_code first constructor.0 scalar.0 }
{
    let k = constructor.0;
    let s = scalar.0;
    both_known(k < Constructor::COUNT, s < Scalar::COUNT)?;
    if FIRST_MATRIX <= k || s < FIRST_FLOAT || LAST_FLOAT < s {
        return Err(Refusal::NoConclusion);
    }
    Ok(first + k * FLOATS + (s - FIRST_FLOAT))
}

// Whether two numbers are known. Refused 7, at 0 for the first, then at 1 for the second.
pub(crate) fn both_known(first: bool, second: bool) -> Result<(), Refusal>
    ensures { verdict_paper result ≡ if_both first second [] (accepted []) }
{
    if !first {
        return Err(Refusal::Unknown(0));
    }
    if !second {
        return Err(Refusal::Unknown(1));
    }
    Ok(())
}

// The scalar of the type: of a value type; the others have none. Refused 7 above 180.
pub fn leaf_scalar(code: u8) -> Result<Option<Scalar>, Refusal>
    ensures { leaf_paper result ≡ leaf_scalar code }
{
    if LAST_CODE < code {
        return Err(Refusal::Unknown(0));
    }
    Ok(scalar_of(code))
}

// The scalar of a value type; none of any other code.
pub(crate) fn scalar_of(code: u8) -> Option<Scalar>
    ensures { MatchOption
        result
        (other_type ≤ code)
        (λ s. (code < other_type) × (s.0 ≡ scalar_part code)) }
{
    (code < VALUES).then_some(Scalar(code % Scalar::COUNT))
}

// Whether the type is a value type of an abstract scalar.
pub fn is_abstract(code: u8) -> bool
    ensures { result ≡ is_abstract code }
{
    scalar_of(code).is_some_and(|scalar| scalar.0 <= Scalar::ABSTRACT_FLOAT.0)
}
