// Overload sets for the built-in mathematical functions, by number.
//
// Functions are numbered from 0 in the order in which `mathfunction.rs` first names them, and the arms stand in its order. Most
// functions have a Regular set, an arm for each; seven have a List, whose rules stand in `listed_rules`. The names of an arm's
// functions stand above it, in the order of their numbers.

ghost use Rattle.std.specs.Prelude.{◌≡◌, [], ◌∷◌};
ghost use Rattle.scalars.specs.Paper.{accepted};
ghost use Rattle.regular.specs.SetPaper.{conclusion_number};
ghost use Rattle.functions.specs.FunctionPaper.{function_paper};
ghost use Rattle.functions.specs.Functions.{set_of_function};

use crate::listed_rules::ListFunction;
use regular::{ConclusionRule, Regular};
use scalars::ScalarSet;
use types::ConstructorSet;

// How many functions there are.
pub const FUNCTION_COUNT: u8 = 79;

// SCALAR|VECN.
const SCALAR_OR_VECN: ConstructorSet = ConstructorSet(
    ConstructorSet::SCALAR.0 | ConstructorSet::VECN.0,
);

// MAT2X2|MAT3X3|MAT4X4.
const SQUARE: ConstructorSet = ConstructorSet(
    ConstructorSet::MAT2X2.0 | ConstructorSet::MAT3X3.0 | ConstructorSet::MAT4X4.0,
);

// A function's overload set: a Regular one, or the List of one of the functions that have one.
#[derive(Clone, Copy)]
pub enum FunctionSet {
    Regular(Regular),
    List(ListFunction),
}

// The overload set of the function; the empty Regular one where there is no such function.
pub fn function_set(function: u8) -> FunctionSet
    ensures { function_paper result ≡ set_of_function function }
{
    match function {
        // Component-wise unary numeric operations: Abs, Sign
        0..=1 => regular(
            1,
            SCALAR_OR_VECN,
            ScalarSet::NUMERIC,
            ConclusionRule::ArgumentType,
        ),
        // Component-wise binary numeric operations: Min, Max
        2..=3 => regular(
            2,
            SCALAR_OR_VECN,
            ScalarSet::NUMERIC,
            ConclusionRule::ArgumentType,
        ),
        // Component-wise ternary numeric operations: Clamp
        4 => regular(
            3,
            SCALAR_OR_VECN,
            ScalarSet::NUMERIC,
            ConclusionRule::ArgumentType,
        ),
        // Component-wise unary floating-point operations: Sin, Cos, Tan, Asin, Acos, Atan, Sinh, Cosh, Tanh, Asinh, Acosh, Atanh,
        // Saturate, Radians, Degrees, Ceil, Floor, Round, Fract, Trunc, Exp, Exp2, Log, Log2, Sqrt, InverseSqrt
        5..=30 => regular(
            1,
            SCALAR_OR_VECN,
            ScalarSet::FLOAT,
            ConclusionRule::ArgumentType,
        ),
        // Component-wise binary floating-point operations: Atan2, Pow, Step
        31..=33 => regular(
            2,
            SCALAR_OR_VECN,
            ScalarSet::FLOAT,
            ConclusionRule::ArgumentType,
        ),
        // Component-wise ternary floating-point operations: Fma, SmoothStep
        34..=35 => regular(
            3,
            SCALAR_OR_VECN,
            ScalarSet::FLOAT,
            ConclusionRule::ArgumentType,
        ),
        // Component-wise unary concrete integer operations: CountTrailingZeros, CountLeadingZeros, CountOneBits, ReverseBits,
        // FirstTrailingBit, FirstLeadingBit
        36..=41 => regular(
            1,
            SCALAR_OR_VECN,
            ScalarSet::CONCRETE_INTEGER,
            ConclusionRule::ArgumentType,
        ),
        // Packing functions: Pack4x8snorm, Pack4x8unorm
        42..=43 => regular(1, ConstructorSet::VEC4, ScalarSet::F32, ConclusionRule::U32),
        // Pack2x16snorm, Pack2x16unorm, Pack2x16float
        44..=46 => regular(1, ConstructorSet::VEC2, ScalarSet::F32, ConclusionRule::U32),
        // Pack4xI8, Pack4xI8Clamp
        47 | 49 => regular(1, ConstructorSet::VEC4, ScalarSet::I32, ConclusionRule::U32),
        // Pack4xU8, Pack4xU8Clamp
        48 | 50 => regular(1, ConstructorSet::VEC4, ScalarSet::U32, ConclusionRule::U32),
        // Unpacking functions: Unpack4x8snorm, Unpack4x8unorm
        51..=52 => regular(
            1,
            ConstructorSet::SCALAR,
            ScalarSet::U32,
            ConclusionRule::Vec4F,
        ),
        // Unpack2x16snorm, Unpack2x16unorm, Unpack2x16float
        53..=55 => regular(
            1,
            ConstructorSet::SCALAR,
            ScalarSet::U32,
            ConclusionRule::Vec2F,
        ),
        // Unpack4xI8
        56 => regular(
            1,
            ConstructorSet::SCALAR,
            ScalarSet::U32,
            ConclusionRule::Vec4I,
        ),
        // Unpack4xU8
        57 => regular(
            1,
            ConstructorSet::SCALAR,
            ScalarSet::U32,
            ConclusionRule::Vec4U,
        ),
        // Dot4I8Packed
        58 => regular(
            2,
            ConstructorSet::SCALAR,
            ScalarSet::U32,
            ConclusionRule::I32,
        ),
        // Dot4U8Packed
        59 => regular(
            2,
            ConstructorSet::SCALAR,
            ScalarSet::U32,
            ConclusionRule::U32,
        ),
        // One-off operations: Dot
        60 => regular(
            2,
            ConstructorSet::VECN,
            ScalarSet::NUMERIC,
            ConclusionRule::Scalar,
        ),
        // Modf
        61 => regular(
            1,
            SCALAR_OR_VECN,
            ScalarSet::FLOAT_ABSTRACT_UNIMPLEMENTED,
            ConclusionRule::Modf,
        ),
        // Frexp
        62 => regular(
            1,
            SCALAR_OR_VECN,
            ScalarSet::FLOAT_ABSTRACT_UNIMPLEMENTED,
            ConclusionRule::Frexp,
        ),
        // Ldexp
        63 => FunctionSet::List(ListFunction::Ldexp),
        // Outer
        64 => FunctionSet::List(ListFunction::Outer),
        // Cross
        65 => regular(
            2,
            ConstructorSet::VEC3,
            ScalarSet::FLOAT,
            ConclusionRule::ArgumentType,
        ),
        // Distance
        66 => regular(
            2,
            SCALAR_OR_VECN,
            ScalarSet::FLOAT_ABSTRACT_UNIMPLEMENTED,
            ConclusionRule::Scalar,
        ),
        // Length
        67 => regular(1, SCALAR_OR_VECN, ScalarSet::FLOAT, ConclusionRule::Scalar),
        // Normalize
        68 => regular(
            1,
            ConstructorSet::VECN,
            ScalarSet::FLOAT,
            ConclusionRule::ArgumentType,
        ),
        // FaceForward
        69 => regular(
            3,
            ConstructorSet::VECN,
            ScalarSet::FLOAT_ABSTRACT_UNIMPLEMENTED,
            ConclusionRule::ArgumentType,
        ),
        // Reflect
        70 => regular(
            2,
            ConstructorSet::VECN,
            ScalarSet::FLOAT_ABSTRACT_UNIMPLEMENTED,
            ConclusionRule::ArgumentType,
        ),
        // Refract
        71 => FunctionSet::List(ListFunction::Refract),
        // Mix
        72 => FunctionSet::List(ListFunction::Mix),
        // Inverse
        73 => regular(1, SQUARE, ScalarSet::FLOAT, ConclusionRule::ArgumentType),
        // Transpose
        74 => FunctionSet::List(ListFunction::Transpose),
        // Determinant
        75 => regular(1, SQUARE, ScalarSet::FLOAT, ConclusionRule::Scalar),
        // QuantizeToF16
        76 => regular(
            1,
            SCALAR_OR_VECN,
            ScalarSet::F32,
            ConclusionRule::ArgumentType,
        ),
        // ExtractBits
        77 => FunctionSet::List(ListFunction::ExtractBits),
        // InsertBits
        78 => FunctionSet::List(ListFunction::InsertBits),
        // No function
        _ => FunctionSet::Regular(Regular::EMPTY),
    }
}

// A Regular set of these parts.
fn regular(
    arity: u8,
    constructors: ConstructorSet,
    scalars: ScalarSet,
    conclude: ConclusionRule,
) -> FunctionSet
    ensures { function_paper result ≡ accepted (0 ∷ arity ∷ constructors.0 ∷ scalars.0 ∷ conclusion_number conclude ∷ []) }
{
    FunctionSet::Regular(Regular {
        arity,
        constructors,
        scalars,
        conclude,
    })
}
