// A set of scalar types, as a mask, and a scalar by its number.
//
// Bit k of a mask stands for the scalar numbered k. If A converts to B, then A's number is at most B's, and of the concrete
// scalars the 32-bit ones come before other sizes: the lowest member is the preferred one.

ghost use Rattle.std.specs.Prelude.{◌≡◌};
ghost use Rattle.std.specs.Int.Bits.{bit_and};
ghost use Rattle.scalars.specs.Domain.{scalar_count};
ghost use Rattle.scalars.specs.OneBits.{members_within};
ghost use Rattle.scalars.specs.Paper.{scalar_paper, members_paper};
ghost use Rattle.scalars.specs.Scalar.{most_general, member, convertible_from, singleton_of, named_sets};

use crate::one_bits_iter::{Members, members_within};
use crate::refusal::Refusal;

// A set of scalars: bit k stands for the scalar numbered k.
#[derive(Clone, Copy)]
pub struct ScalarSet(pub u16);

// A scalar by its number, 0 to 11: any other is refused, or required away in a private function.
#[derive(Clone, Copy, PartialEq, Eq)]
pub struct Scalar(pub u8);

// The sets that `scalar_set.rs` names.
#[derive(Clone, Copy)]
pub struct NamedSets {
    pub float: ScalarSet,
    pub integer: ScalarSet,
    pub numeric: ScalarSet,
    pub abstracts: ScalarSet,
    pub concrete: ScalarSet,
    pub concrete_integer: ScalarSet,
    pub concrete_float: ScalarSet,
    pub float_abstract_unimplemented: ScalarSet,
}

impl Scalar {
    pub const ABSTRACT_INT: Scalar = Scalar(0);

    pub const ABSTRACT_FLOAT: Scalar = Scalar(1);

    pub const I32: Scalar = Scalar(2);

    pub const I16: Scalar = Scalar(3);

    pub const I64: Scalar = Scalar(4);

    pub const U32: Scalar = Scalar(5);

    pub const U16: Scalar = Scalar(6);

    pub const U64: Scalar = Scalar(7);

    pub const F32: Scalar = Scalar(8);

    pub const F16: Scalar = Scalar(9);

    pub const F64: Scalar = Scalar(10);

    pub const BOOL: Scalar = Scalar(11);

    // How many scalars there are.
    pub const COUNT: u8 = 12;
}

impl ScalarSet {
    pub const EMPTY: ScalarSet = ScalarSet(0);

    pub const ABSTRACT_INT: ScalarSet = ScalarSet(1 << Scalar::ABSTRACT_INT.0);

    pub const ABSTRACT_FLOAT: ScalarSet = ScalarSet(1 << Scalar::ABSTRACT_FLOAT.0);

    pub const I32: ScalarSet = ScalarSet(1 << Scalar::I32.0);

    pub const I16: ScalarSet = ScalarSet(1 << Scalar::I16.0);

    pub const I64: ScalarSet = ScalarSet(1 << Scalar::I64.0);

    pub const U32: ScalarSet = ScalarSet(1 << Scalar::U32.0);

    pub const U16: ScalarSet = ScalarSet(1 << Scalar::U16.0);

    pub const U64: ScalarSet = ScalarSet(1 << Scalar::U64.0);

    pub const F32: ScalarSet = ScalarSet(1 << Scalar::F32.0);

    pub const F16: ScalarSet = ScalarSet(1 << Scalar::F16.0);

    pub const F64: ScalarSet = ScalarSet(1 << Scalar::F64.0);

    pub const BOOL: ScalarSet = ScalarSet(1 << Scalar::BOOL.0);

    pub const FLOAT: ScalarSet = ScalarSet(
        ScalarSet::ABSTRACT_FLOAT.0 | ScalarSet::F16.0 | ScalarSet::F32.0 | ScalarSet::F64.0,
    );

    pub const INTEGER: ScalarSet = ScalarSet(
        ScalarSet::ABSTRACT_INT.0
            | ScalarSet::I16.0
            | ScalarSet::I32.0
            | ScalarSet::I64.0
            | ScalarSet::U16.0
            | ScalarSet::U32.0
            | ScalarSet::U64.0,
    );

    pub const NUMERIC: ScalarSet = ScalarSet(ScalarSet::FLOAT.0 | ScalarSet::INTEGER.0);

    // Every scalar.
    pub const ALL: ScalarSet = ScalarSet(ScalarSet::NUMERIC.0 | ScalarSet::BOOL.0);

    pub const ABSTRACT: ScalarSet = ScalarSet(
        ScalarSet::ABSTRACT_INT.0 | ScalarSet::ABSTRACT_FLOAT.0,
    );

    pub const CONCRETE: ScalarSet = ScalarSet(ScalarSet::ALL.0 - ScalarSet::ABSTRACT.0);

    pub const CONCRETE_INTEGER: ScalarSet = ScalarSet(ScalarSet::INTEGER.0 & ScalarSet::CONCRETE.0);

    pub const CONCRETE_FLOAT: ScalarSet = ScalarSet(ScalarSet::FLOAT.0 & ScalarSet::CONCRETE.0);

    // Floating-point scalars without the abstract ones, which the crate leaves out of some functions.
    pub const FLOAT_ABSTRACT_UNIMPLEMENTED: ScalarSet = ScalarSet::CONCRETE_FLOAT;

    // The set of the one scalar; the empty set for an unknown number, as in the crate.
    pub fn singleton(scalar: Scalar) -> ScalarSet
        ensures { result.0 ≡ singleton_of scalar.0 }
    {
        if scalar.0 < Scalar::COUNT {
            ScalarSet(1 << scalar.0)
        } else {
            ScalarSet::EMPTY
        }
    }

    // The scalars that this one converts to, itself among them; none for an unknown number, as in the crate.
    pub fn convertible_from(scalar: Scalar) -> ScalarSet
        ensures { result.0 ≡ convertible_from scalar.0 }
    {
        if scalar == Scalar::ABSTRACT_INT {
            ScalarSet::NUMERIC
        } else if scalar == Scalar::ABSTRACT_FLOAT {
            ScalarSet::FLOAT
        } else {
            ScalarSet::singleton(scalar)
        }
    }

    // The scalars that are in both sets: the and of their masks. `ConstructorSet` has its own, since each mask has a type of its own, and one
    // line in a trait would be no shorter.
    pub fn meet(self, other: ScalarSet) -> ScalarSet
        ensures { result.0 ≡ bit_and self.0 other.0 }
    {
        ScalarSet(self.0 & other.0)
    }

    // Whether the scalar is a member; an unknown one is of no set.
    pub fn contains(self, scalar: Scalar) -> bool
        ensures { result ≡ member scalar.0 self.0 }
    {
        scalar.0 < Scalar::COUNT && (self.0 >> scalar.0) % 2 == 1
    }

    // The lowest member. Refused 7 for an unknown bit, then 1 for the empty set: two tests, of a mask of its own.
    pub fn most_general_scalar(self) -> Result<Scalar, Refusal>
        ensures { scalar_paper result ≡ most_general self.0 }
    {
        let mask = self.0;
        if ScalarSet::ALL.0 < mask {
            return Err(Refusal::Unknown(0));
        }
        if mask == 0 {
            return Err(Refusal::EmptySet(0));
        }
        Ok(Scalar(mask.trailing_zeros() as u8))
    }

    // The members' numbers, lowest first. Refused 7 for an unknown bit.
    pub fn members(self) -> Result<Members, Refusal>
        ensures { members_paper result ≡ members_within scalar_count self.0 }
    {
        members_within(self.0, ScalarSet::ALL.0)
    }

    // Each set that has a name of its own.
    pub fn named() -> NamedSets
        ensures { result ≡ named_sets }
    {
        NamedSets {
            float: ScalarSet::FLOAT,
            integer: ScalarSet::INTEGER,
            numeric: ScalarSet::NUMERIC,
            abstracts: ScalarSet::ABSTRACT,
            concrete: ScalarSet::CONCRETE,
            concrete_integer: ScalarSet::CONCRETE_INTEGER,
            concrete_float: ScalarSet::CONCRETE_FLOAT,
            float_abstract_unimplemented: ScalarSet::FLOAT_ABSTRACT_UNIMPLEMENTED,
        }
    }
}
