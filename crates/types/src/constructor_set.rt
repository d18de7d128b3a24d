// A set of type constructors, as a mask, and a constructor by its number.
//
// Bit k of a mask stands for the constructor numbered k: SCALAR, VEC2 to VEC4, then the matrices, columns before rows.

ghost use Rattle.std.specs.Prelude.{◌≡◌, [], eqb, get_or, length, ◌<◌, ◌+◌, true, false};
ghost use Rattle.std.specs.Result.{MatchResult};
ghost use Rattle.std.specs.Int.Bits.{bit_and};
ghost use Rattle.scalars.specs.Mask.{bits};
ghost use Rattle.scalars.specs.OneBits.{members_within};
ghost use Rattle.scalars.specs.Paper.{members_paper};
ghost use Rattle.types.specs.Domain.{constructor_count, size_count, bi};
ghost use Rattle.types.specs.TypePaper.{size_values, size_paper, constructor_paper, code_paper};
ghost use Rattle.types.specs.Constructor.{singleton_of_code, constructor_size, set_size, sizes, constructor_of, inner_of, outside_sizes, constructors_that, vector?};

use crate::type_code::{VALUES, value_code};
use scalars::{Members, OneBit, Refusal, Scalar, members_within};

// A set of constructors: bit k stands for the constructor numbered k.
#[derive(Clone, Copy)]
pub struct ConstructorSet(pub u16);

// A constructor by its number, 0 to 12: any other is refused, or required away in a private function.
#[derive(Clone, Copy)]
pub struct Constructor(pub u8);

// The size of a constructor: a vector's number of components, a matrix's columns and rows. Numbers, since a size that does not exist is
// refused by `constructor`.
#[derive(Clone, Copy)]
pub enum ConstructorSize {
    Scalar,
    Vector(u8),
    Matrix { columns: u8, rows: u8 },
}

// The numbers at which the three kinds of constructor begin.
const SCALAR: u8 = Constructor::SCALAR.0;

const FIRST_VECTOR: u8 = Constructor::VEC2.0;

pub(crate) const FIRST_MATRIX: u8 = Constructor::MAT2X2.0;

impl Constructor {
    pub const SCALAR: Constructor = Constructor(0);

    pub const VEC2: Constructor = Constructor(1);

    pub const VEC3: Constructor = Constructor(2);

    pub const VEC4: Constructor = Constructor(3);

    pub const MAT2X2: Constructor = Constructor(4);

    pub const MAT2X3: Constructor = Constructor(5);

    pub const MAT2X4: Constructor = Constructor(6);

    pub const MAT3X2: Constructor = Constructor(7);

    pub const MAT3X3: Constructor = Constructor(8);

    pub const MAT3X4: Constructor = Constructor(9);

    pub const MAT4X2: Constructor = Constructor(10);

    pub const MAT4X3: Constructor = Constructor(11);

    pub const MAT4X4: Constructor = Constructor(12);

    // How many constructors there are.
    pub const COUNT: u8 = 13;

    // The size of this constructor. Refused 7 for an unknown one.
    pub fn size(self) -> Result<ConstructorSize, Refusal>
        ensures { size_paper result ≡ constructor_size self.0 }
    {
        if Constructor::COUNT <= self.0 {
            return Err(Refusal::Unknown(0));
        }
        Ok(size_of(self))
    }
}

impl ConstructorSet {
    pub const EMPTY: ConstructorSet = ConstructorSet(0);

    pub const SCALAR: ConstructorSet = ConstructorSet(1 << Constructor::SCALAR.0);

    pub const VEC2: ConstructorSet = ConstructorSet(1 << Constructor::VEC2.0);

    pub const VEC3: ConstructorSet = ConstructorSet(1 << Constructor::VEC3.0);

    pub const VEC4: ConstructorSet = ConstructorSet(1 << Constructor::VEC4.0);

    pub const MAT2X2: ConstructorSet = ConstructorSet(1 << Constructor::MAT2X2.0);

    pub const MAT2X3: ConstructorSet = ConstructorSet(1 << Constructor::MAT2X3.0);

    pub const MAT2X4: ConstructorSet = ConstructorSet(1 << Constructor::MAT2X4.0);

    pub const MAT3X2: ConstructorSet = ConstructorSet(1 << Constructor::MAT3X2.0);

    pub const MAT3X3: ConstructorSet = ConstructorSet(1 << Constructor::MAT3X3.0);

    pub const MAT3X4: ConstructorSet = ConstructorSet(1 << Constructor::MAT3X4.0);

    pub const MAT4X2: ConstructorSet = ConstructorSet(1 << Constructor::MAT4X2.0);

    pub const MAT4X3: ConstructorSet = ConstructorSet(1 << Constructor::MAT4X3.0);

    pub const MAT4X4: ConstructorSet = ConstructorSet(1 << Constructor::MAT4X4.0);

    pub const VECN: ConstructorSet = ConstructorSet(
        ConstructorSet::VEC2.0 | ConstructorSet::VEC3.0 | ConstructorSet::VEC4.0,
    );

    // Every constructor.
    pub const ALL: ConstructorSet = ConstructorSet(
        ConstructorSet::SCALAR.0
            | ConstructorSet::VECN.0
            | ConstructorSet::MAT2X2.0
            | ConstructorSet::MAT2X3.0
            | ConstructorSet::MAT2X4.0
            | ConstructorSet::MAT3X2.0
            | ConstructorSet::MAT3X3.0
            | ConstructorSet::MAT3X4.0
            | ConstructorSet::MAT4X2.0
            | ConstructorSet::MAT4X3.0
            | ConstructorSet::MAT4X4.0,
    );

    // The set of the type code's constructor; the empty set for a code that is no value type's.
    pub fn singleton(code: u8) -> ConstructorSet
        ensures { result.0 ≡ singleton_of_code code }
    {
        if VALUES <= code {
            return ConstructorSet::EMPTY;
        }
        ConstructorSet(1u16 << (code / Scalar::COUNT))
    }

    // The constructors that are in both sets: the and of their masks.
    pub fn meet(self, other: ConstructorSet) -> ConstructorSet
        ensures { result.0 ≡ bit_and self.0 other.0 }
    {
        ConstructorSet(self.0 & other.0)
    }

    // Whether the set has one member: the count of ones is one.
    pub fn is_singleton(self) -> bool
        ensures { result ≡ eqb (length (bits 16 self.0)) 1 }
    {
        self.0.count_ones() == 1
    }

    // The members' numbers, lowest first. Refused 7 for an unknown bit.
    pub fn members(self) -> Result<Members, Refusal>
        ensures { members_paper result ≡ members_within constructor_count self.0 }
    {
        members_within(self.0, ConstructorSet::ALL.0)
    }

    // The size of the one member. Refused 7 for an unknown bit, 1 for the empty set, 2 for several members: tests of a mask of its own.
    pub fn size(self) -> Result<ConstructorSize, Refusal>
        ensures { size_paper result ≡ set_size self.0 }
    {
        let mask = self.0;
        if ConstructorSet::ALL.0 < mask {
            return Err(Refusal::Unknown(0));
        }
        if mask == 0 {
            return Err(Refusal::EmptySet(0));
        }
        if !self.is_singleton() {
            return Err(Refusal::SeveralConstructors);
        }
        let member = OneBit(u64::from(mask)).number();
        Ok(size_of(Constructor(member.0)))
    }

    // The set that `constructor_set.rs` names VECN.
    pub fn vecn() -> ConstructorSet
        ensures { result.0 ≡ constructors_that vector? }
    {
        ConstructorSet::VECN
    }
}

// The size of a constructor.
fn size_of(constructor: Constructor) -> ConstructorSize
    requires { constructor.0 < constructor_count }
    ensures { size_values result ≡ get_or sizes constructor.0 [] }
{
    let k = constructor.0;
    if k == SCALAR {
        return ConstructorSize::Scalar;
    }
    if k < FIRST_MATRIX {
        return ConstructorSize::Vector(k - FIRST_VECTOR + ConstructorSize::BI);
    }
    ConstructorSize::Matrix {
        columns: (k - FIRST_MATRIX) / ConstructorSize::COUNT + ConstructorSize::BI,
        rows: (k - FIRST_MATRIX) % ConstructorSize::COUNT + ConstructorSize::BI,
    }
}

impl ConstructorSize {
    // The least and the most components of a vector, as in the crate's `VectorSize`; a matrix has as many columns and rows.
    pub const BI: u8 = 2;

    pub const QUAD: u8 = 4;

    // How many sizes a vector may have.
    pub const COUNT: u8 = 3;

    pub const VEC2: ConstructorSize = ConstructorSize::Vector(ConstructorSize::BI);

    pub const VEC4: ConstructorSize = ConstructorSize::Vector(ConstructorSize::QUAD);

    // The constructor of this size. Refused 7 for a vector or a matrix that does not exist.
    pub fn constructor(self) -> Result<Constructor, Refusal>
        ensures { constructor_paper result ≡ constructor_of self }
    {
        match self {
            ConstructorSize::Scalar => Ok(Constructor::SCALAR),
            ConstructorSize::Vector(n) => Ok(Constructor(FIRST_VECTOR + size_place(n)?)),
            ConstructorSize::Matrix { columns, rows } => Ok(Constructor(
                FIRST_MATRIX + size_place(columns)? * ConstructorSize::COUNT + size_place(rows)?,
            )),
        }
    }

    // The type code of this size and the scalar. Refused 7, at 0 for the size, then at 1 for the scalar.
    pub fn to_inner(self, scalar: Scalar) -> Result<u8, Refusal>
        ensures { code_paper result ≡ inner_of self scalar.0 }
    {
        value_code(self.constructor()?, scalar)
    }
}

// The place of a number of components, columns or rows among those that there are, from 0 on. Refused 7 for a number outside these.
fn size_place(n: u8) -> Result<u8, Refusal>
    ensures { MatchResult
        result
        (λ k. (outside_sizes n ≡ false) × (k < size_count) × (k + bi ≡ n))
        (λ why. (outside_sizes n ≡ true) × (why ≡ Refusal.Unknown 0)) }
{
    if n < ConstructorSize::BI || ConstructorSize::QUAD < n {
        return Err(Refusal::Unknown(0));
    }
    Ok(n - ConstructorSize::BI)
}
