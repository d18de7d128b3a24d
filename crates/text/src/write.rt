// An expression's bytes written as text into lent memory, or the first refusal.

ghost use Rattle.std.specs.Prelude.{◌≡◌, length};
ghost use Rattle.functions.specs.Functions.{function_count};
ghost use Rattle.expressions.specs.Reading.{expression_of};
ghost use Rattle.text.specs.TextPaper.{text_paper};
ghost use Rattle.text.specs.Lent.{lent_answer, lent_buffer};
ghost use Rattle.text.specs.Writing.{text_of};

use crate::lent::lend_front;
use crate::source::Source;
use crate::strip::blank;
use crate::writer::ENOUGH_BYTES;
use expressions::read_expression;
use functions::FUNCTION_COUNT;
use names::{built_in_index, built_in_names};
use scalars::Refusal;

// Writes the text of an expression's bytes into the lent buffer. Refused by the first pass's 7, 8, 9 and 17, then 10.
pub fn write_text(bytes: &[u8], out: &mut [u8]) -> Result<usize, Refusal>
    ensures answer { text_paper result ≡ lent_answer text_of (expression_of function_count bytes.now) (length out.old) }
    ensures buffer { out.new ≡ lent_buffer text_of (expression_of function_count bytes.now) out.old }
{
    read_expression(bytes, FUNCTION_COUNT)?;
    let names = built_in_names();
    let index = built_in_index();
    let mut strip = blank::<ENOUGH_BYTES>();
    let source = Source {
        bytes,
        names: &names,
        index: &index,
    };
    let root = source.write_node(0, 0, &mut strip);
    lend_front(&strip, root.made, out)
}
