// The marks of operands that stand side by side, a byte each.

ghost use Rattle.std.specs.Prelude.{◌≡◌};
ghost use Rattle.types.specs.Operand.{any_mark};

use crate::operand::MEASURED;

// Whether some operand is measured.
pub fn any_measured(marks: &[u8]) -> bool
    ensures { result ≡ any_mark marks.now }
{
    marks.contains(&MEASURED)
}
