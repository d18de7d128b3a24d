// The strict machine: it runs the lines of a worksheet, four bytes each, on a stack of operands.
//
// It takes a worksheet's word for nothing: every line is tested, and the first that asks for something it may not have stops the
// run. Bytes of any number and any value may be handed in.

ghost use Rattle.std.specs.Prelude.{◌≡◌};
ghost use Rattle.functions.specs.Functions.{listing_of};
ghost use Rattle.machine.specs.Machine.{run_bytes};
ghost use Rattle.machine.specs.Run.{run_paper, ran_of};

use crate::stack::Stack;
use types::Operand;

// How a run ends that no line stops: with so many operands on the stack, and the topmost, where there is one.
#[derive(Clone, Copy)]
pub struct Ended {
    pub operands: usize,
    pub top: Option<Operand>,
}

// The number of the line that stopped a run, from 0.
#[derive(Clone, Copy)]
pub struct Stopped(pub usize);

// Runs a worksheet from the empty stack.
pub fn run_worksheet(sheet: &[u8]) -> Result<Ended, Stopped>
    ensures { run_paper result ≡ ran_of (run_bytes listing_of sheet.now) }
{
    let mut stack = Stack::new();
    let mut left = sheet;
    let mut line = 0;
    // A pattern names the four bytes; the number of the line stands in a stop.
    while let [tag, x, y, z, rest @ ..] = left {
        stack.line(*tag, *x, *y, *z).ok_or(Stopped(line))?;
        left = rest;
        line += 1;
    }
    if !left.is_empty() {
        return Err(Stopped(line));
    }
    Ok(stack.ended())
}
