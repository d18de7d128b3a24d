// Expressions read from texts, and written as texts.

ghost use Rattle.std.specs.Prelude.{◌≡◌, length};
ghost use Rattle.functions.specs.Functions.{function_count};
ghost use Rattle.expressions.specs.Tree.{bytes_of};
ghost use Rattle.expressions.specs.Reading.{expression_of};
ghost use Rattle.text.specs.Lent.{lent_answer, lent_buffer};
ghost use Rattle.text.specs.Reading.{reading};
ghost use Rattle.text.specs.Writing.{text_of};
ghost use Rattle.c_answers.specs.Answers.{text_for_c};

use c_answers::TextForC;
use text::{read_text, write_text};

// The bytes of the expression that a text spells, in front of the lent bytes.
pub fn azwukran_read_text(text: &[u8], out: &mut [u8]) -> TextForC
    ensures answer { result ≡ text_for_c (lent_answer bytes_of (reading text.now) (length out.old)) }
    ensures buffer { out.new ≡ lent_buffer bytes_of (reading text.now) out.old }
{
    read_text(text, out).into()
}

// The text of an expression's bytes, in front of the lent bytes.
pub fn azwukran_write_text(bytes: &[u8], out: &mut [u8]) -> TextForC
    ensures answer { result ≡ text_for_c (lent_answer text_of (expression_of function_count bytes.now) (length out.old)) }
    ensures buffer { out.new ≡ lent_buffer text_of (expression_of function_count bytes.now) out.old }
{
    write_text(bytes, out).into()
}
