// The operands of the second pass: the type of each, its mark, and the offset of its first byte, at which a call that has no rule for it
// is refused. An expression has at most `MOST_NODES` nodes, so no more operands wait at once. They stand in three arrays of fixed size
// side by side, because a call is asked by its operands' types and marks as slices.

ghost use Rattle.std.specs.Prelude.{◌≡◌, ◌≤◌, length};
ghost use Rattle.machine.specs.Machine.{most_operands};

use expressions::MOST_NODES;
use types::{CONSTANT, Operand};

// The operands are the first `top`, the last of them on top.
#[derive(Clone, Copy)]
pub(crate) struct Stack {
    pub(crate) types: [u8; MOST_NODES],
    pub(crate) marks: [u8; MOST_NODES],
    pub(crate) starts: [usize; MOST_NODES],
    pub(crate) top: usize,
    ghost types_long: { length types ≡ most_operands },
    ghost marks_long: { length marks ≡ most_operands },
    ghost starts_long: { length starts ≡ most_operands },
    ghost few: { top ≤ most_operands },
}

impl Stack {
    ghost use Rattle.std.specs.Prelude.{[], ◌∷◌, ◌<◌};
    ghost use Rattle.worksheet.specs.private.Stack.{operand_at, top_part, Pushed, Cut};

    // With no operand.
    pub(crate) fn new() -> Self
        ensures { result.top ≡ 0 }
    {
        Self {
            types: [0u8; MOST_NODES],
            marks: [CONSTANT; MOST_NODES],
            starts: [0usize; MOST_NODES],
            top: 0,
        }
    }

    // One operand more, whose first byte is at `start`.
    pub(crate) fn push(&mut self, operand: Operand, start: usize)
        requires { self.old.top < most_operands }
        ensures { Pushed self.old (operand ∷ []) (start ∷ []) self.new }
    {
        let at = self.top;
        self.types[at] = operand.code;
        self.marks[at] = operand.mark();
        self.starts[at] = start;
        self.top = at + 1;
    }

    // The operand of a number, counted from the bottom.
    pub(crate) fn operand(&self, i: usize) -> Operand
        requires { i < most_operands }
        ensures { result ≡ operand_at self.now i }
    {
        Operand::of(self.types[i], self.marks[i])
    }

    // The types of the `count` operands on top.
    pub(crate) fn types_on_top(&self, count: usize) -> &[u8]
        requires { count ≤ self.now.top }
        ensures { result.now ≡ top_part self.now.types self.now.top count }
    {
        let types: &[u8] = &self.types;
        &types[self.top - count..self.top]
    }

    // The marks of the `count` operands on top. A function of its own: which array is meant would be one more parameter.
    pub(crate) fn marks_on_top(&self, count: usize) -> &[u8]
        requires { count ≤ self.now.top }
        ensures { result.now ≡ top_part self.now.marks self.now.top count }
    {
        let marks: &[u8] = &self.marks;
        &marks[self.top - count..self.top]
    }

    // Takes off the `count` operands on top.
    pub(crate) fn cut(&mut self, count: usize)
        requires { count ≤ self.old.top }
        ensures { Cut self.old count self.new }
    {
        self.top -= count;
    }
}
