// The second pass over an expression, and the whole answer: the operand that the expression makes and its worksheet, or the first refusal.
//
// Arguments are typed before their call, from left to right, so `type_node` and `type_arguments` call each other, as the two
// readings of the first pass do. They run over bytes that the first pass accepted, which is why the stack of operands and the
// sheet of lines have room enough. Both are lent on, and only a finished sheet is copied into the lent buffer. They stay two parameters
// beside the bytes and the switch: of one struct that holds all four, each contract would have to say that the latter are as they were.

ghost use Rattle.worksheet.specs.Answer.{buffer_after};
ghost use Rattle.worksheet.specs.private.SecondPass.{NodeThere, NodeTyped, ArgsThere, ArgsTyped};
ghost use Rattle.worksheet.specs.Typing.{typing, answer_of, type_paper};
ghost use Rattle.std.specs.Prelude.{◌≡◌};

use crate::one_call::type_call;
use crate::sheet::Sheet;
use crate::stack::Stack;
use expressions::{CALL, MEASURED_LEAF, read_expression};
use functions::FUNCTION_COUNT;
use lending::lend_bytes;
use machine::{LEAF_LINE, SPARE};
use scalars::Refusal;
use types::Operand;

// What an expression makes: its operand, and how many bytes the worksheet takes, which stands in front of the lent buffer.
#[derive(Clone, Copy)]
pub struct Typed {
    pub result: Operand,
    pub len: usize,
}

// Types an expression and writes its worksheet into the lent buffer, or answers the first fault and leaves the buffer as it was. First
// the faults of the first pass, then those of the second, and the room last.
pub fn type_expression(bytes: &[u8], switch: bool, out: &mut [u8]) -> Result<Typed, Refusal>
    ensures answer { type_paper result ≡ answer_of (typing switch bytes.now out.old) }
    ensures buffer { out.new ≡ buffer_after (typing switch bytes.now out.old) out.old }
{
    read_expression(bytes, FUNCTION_COUNT)?;
    let mut stack = Stack::new();
    let mut sheet = Sheet::new();
    type_node(bytes, 0, switch, &mut stack, &mut sheet)?;
    let written = sheet.written();
    lend_bytes(written, out)?;
    Ok(Typed {
        result: stack.operand(0),
        len: written.len(),
    })
}

// Types the node at `at`, which the first pass has found there; the answer is the offset behind it.
#[cycle(type_arguments_type_node)]
fn type_node(
    bytes: &[u8],
    at: usize,
    switch: bool,
    stack: &mut Stack,
    sheet: &mut Sheet,
) -> Result<usize, Refusal>
    requires { NodeThere bytes.now at stack.old sheet.old }
    ensures { NodeTyped bytes.now at switch stack.old sheet.old result stack.new sheet.new }
{
    let tag = bytes[at];
    let code = bytes[at + 1];
    if tag != CALL {
        let leaf = Operand {
            code,
            measured: tag == MEASURED_LEAF,
        };
        stack.push(leaf, at);
        sheet.line(LEAF_LINE, code, leaf.mark(), SPARE);
        return Ok(at + 2);
    }
    let count = bytes[at + 2];
    let past = type_arguments(bytes, at + 3, usize::from(count), switch, stack, sheet)?;
    type_call(code, count, at, switch, stack, sheet)?;
    Ok(past)
}

// Types `left` nodes one after the other; the answer is the offset behind the last.
#[cycle(type_arguments_type_node)]
fn type_arguments(
    bytes: &[u8],
    at: usize,
    left: usize,
    switch: bool,
    stack: &mut Stack,
    sheet: &mut Sheet,
) -> Result<usize, Refusal>
    requires { ArgsThere bytes.now at left stack.old sheet.old }
    ensures { ArgsTyped bytes.now at left switch stack.old sheet.old result stack.new sheet.new }
{
    if left == 0 {
        return Ok(at);
    }
    let next = type_node(bytes, at, switch, stack, sheet)?;
    type_arguments(bytes, next, left - 1, switch, stack, sheet)
}
