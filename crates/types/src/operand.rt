// An operand: its type, and whether it is constant or measured.
//
// A call is measured if any of its operands is, and a measured operand is never abstract: a reading of an instrument has a precision. One
// operand is a record; where several stand side by side, in lent memory and on stacks, their types stand in one slice and their marks, a
// byte each, in another.

ghost use Rattle.std.specs.Prelude.{◌≡◌};
ghost use Rattle.types.specs.Operand.{mark_of, operand_of, measured_abstract, concrete_only};

use crate::type_code::is_abstract;

// Marks are bytes where operands stand side by side, as C hands them in.
//
// The mark of a constant operand.
pub const CONSTANT: u8 = 0;
// The mark of a measured operand.
pub const MEASURED: u8 = 1;

#[derive(Clone, Copy)]
pub struct Operand {
    pub code: u8,
    pub measured: bool,
}

impl Operand {
    // The operand of a type code and a mark. Not a `From`: of two bytes it would make a pair at each use.
    pub fn of(code: u8, mark: u8) -> Self
        ensures { result ≡ operand_of code mark }
    {
        Self {
            code,
            measured: mark == MEASURED,
        }
    }

    // Its mark.
    pub fn mark(self) -> u8
        ensures { result ≡ mark_of self.measured }
    {
        if self.measured { MEASURED } else { CONSTANT }
    }

    // Whether it is measured and abstract, as no reading can be.
    pub fn is_measured_abstract(self) -> bool
        ensures { result ≡ measured_abstract self }
    {
        self.measured && is_abstract(self.code)
    }
}

// Whether a call drops rules with an abstract argument: the switch asks for it, or a measured operand does.
pub fn concrete_only(switch: bool, measured: bool) -> bool
    ensures { result ≡ concrete_only switch measured }
{
    switch || measured
}
