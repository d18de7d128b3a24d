// The sequences over which the rules of a List are written, and the codes of the types in them.
//
// The crate has iterators and nests them. Here each sequence is a function of a number: its member at that place, and its last member
// from there on, so that no rule has to show its places within bounds, as it would of an array. A rule's place in its List, divided by
// the lengths of the inner sequences in turn, gives the places of its parts.

ghost use Rattle.std.specs.Prelude.{◌≡◌, ◌+◌, ◌<◌, get_or};
ghost use Rattle.scalars.specs.Domain.{scalar_count};
ghost use Rattle.types.specs.Domain.{constructor_count, bi};
ghost use Rattle.types.specs.TypeCode.{type_code};
ghost use Rattle.functions.specs.Sequences.{float_scalars, concrete_float_scalars, concrete_int_scalars};
ghost use Rattle.functions.specs.Sequences.{vector_sizes, vector, matrix, scalar_or_vecn};
ghost use Rattle.functions.specs.private.Sizes.{size_number};

use scalars::Scalar;
use types::{Constructor, ConstructorSize};

// How many members each sequence has: the floating-point scalars, those without the abstract one, the concrete integer scalars, the
// sizes of vectors, and the types that are a scalar or a vector of it.
pub(crate) const FLOATS: u8 = 4;

pub(crate) const CONCRETE_FLOATS: u8 = 3;

pub(crate) const CONCRETE_INTS: u8 = 6;

pub(crate) const SIZES: u8 = ConstructorSize::COUNT;

pub(crate) const SHAPES: u8 = 4;

// The number of a vector's components, or of a matrix's columns or rows.
#[derive(Clone, Copy)]
pub(crate) enum VectorSize {
    Bi,
    Tri,
    Quad,
}

impl VectorSize {
    // How far the size is above the least one.
    fn above_least(self) -> u8
        ensures { result + bi ≡ size_number self }
    {
        match self {
            VectorSize::Bi => 0,
            VectorSize::Tri => 1,
            VectorSize::Quad => 2,
        }
    }
}

// The floating-point scalars. F32 comes before other sizes: this is how conversion rank is represented.
#[tactic(auto, unfolding(crate::specs::Sequences::float_scalars))]
pub(crate) fn float_scalars(i: u8) -> Scalar
    ensures listed { result.0 ≡ get_or float_scalars i 10 }
    ensures known { result.0 < scalar_count }
{
    match i {
        0 => Scalar::ABSTRACT_FLOAT,
        1 => Scalar::F32,
        2 => Scalar::F16,
        _ => Scalar::F64,
    }
}

// The floating-point scalars without the abstract one, which the crate leaves out of some functions.
#[tactic(auto, unfolding(crate::specs::Sequences::concrete_float_scalars))]
pub(crate) fn float_scalars_unimplemented_abstract(i: u8) -> Scalar
    ensures listed { result.0 ≡ get_or concrete_float_scalars i 10 }
    ensures known { result.0 < scalar_count }
{
    match i {
        0 => Scalar::F32,
        1 => Scalar::F16,
        _ => Scalar::F64,
    }
}

// The concrete integer scalars, signed before unsigned of each size.
#[tactic(auto, unfolding(crate::specs::Sequences::concrete_int_scalars))]
pub(crate) fn concrete_int_scalars(i: u8) -> Scalar
    ensures listed { result.0 ≡ get_or concrete_int_scalars i 7 }
    ensures known { result.0 < scalar_count }
{
    match i {
        0 => Scalar::I32,
        1 => Scalar::U32,
        2 => Scalar::I16,
        3 => Scalar::U16,
        4 => Scalar::I64,
        _ => Scalar::U64,
    }
}

// The sizes of vectors.
#[tactic(auto, unfolding(crate::specs::Sequences::vector_sizes))]
pub(crate) fn vector_sizes(i: u8) -> VectorSize
    ensures { size_number result ≡ get_or vector_sizes i 4 }
{
    match i {
        0 => VectorSize::Bi,
        1 => VectorSize::Tri,
        _ => VectorSize::Quad,
    }
}

// The scalar and vector types that have `scalar` as their scalar.
#[tactic(auto, unfolding(crate::specs::Sequences::scalar_or_vecn, crate::specs::Sequences::vector))]
pub(crate) fn scalar_or_vecn(scalar: Scalar, i: u8) -> u8
    requires { scalar.0 < scalar_count }
    ensures { result ≡ get_or (scalar_or_vecn scalar.0) i (vector 4 scalar.0) }
{
    match i {
        0 => scalar.0,
        1 => code(Constructor::VEC2, scalar),
        2 => code(Constructor::VEC3, scalar),
        _ => code(Constructor::VEC4, scalar),
    }
}

// The type of vectors of this size.
#[tactic(auto, unfolding(crate::specs::Sequences::vector))]
pub(crate) fn vector(size: VectorSize, scalar: Scalar) -> u8
    requires { scalar.0 < scalar_count }
    ensures { result ≡ vector (size_number size) scalar.0 }
{
    let number = Constructor::VEC2.0 + size.above_least();
    code(Constructor(number), scalar)
}

// The type of matrices of these sizes: for each number of columns there is one for each number of rows.
#[tactic(auto, unfolding(crate::specs::Sequences::matrix))]
pub(crate) fn matrix(columns: VectorSize, rows: VectorSize, scalar: Scalar) -> u8
    requires { scalar.0 < scalar_count }
    ensures { result ≡ matrix (size_number columns) (size_number rows) scalar.0 }
{
    let number = Constructor::MAT2X2.0 + columns.above_least() * SIZES + rows.above_least();
    code(Constructor(number), scalar)
}

// The code of a value type, of parts that are known, and so without a refusal.
pub(crate) fn code(constructor: Constructor, scalar: Scalar) -> u8
    requires { (constructor.0 < constructor_count) × (scalar.0 < scalar_count) }
    ensures { result ≡ type_code constructor.0 scalar.0 }
{
    constructor.0 * Scalar::COUNT + scalar.0
}
