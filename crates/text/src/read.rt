// A text read into lent memory: the bytes of its expression, or the first refusal.

ghost use Rattle.std.specs.Prelude.{◌≡◌, length};
ghost use Rattle.expressions.specs.Tree.{bytes_of};
ghost use Rattle.text.specs.TextPaper.{text_paper};
ghost use Rattle.text.specs.Lent.{lent_answer, lent_buffer};
ghost use Rattle.text.specs.Reading.{reading};

use crate::lent::lend_front;
use crate::source::Source;
use crate::strip::blank;
use crate::token::{Token, next_token};
use expressions::MOST_NODES;
use names::{built_in_index, built_in_names};
use scalars::Refusal;

// A text has at most so many bytes.
pub const MOST_BYTES: usize = 4096;

// The bytes of any expression within the limits: a node has at most three of its own.
const ENOUGH_BYTES: usize = 3 * MOST_NODES;

// Reads a text and puts the bytes of its expression into the lent buffer. Refused 15 at 4096 for a longer text; then by the first fault in
// the text: 9 a node too many or too deep, 14 an unknown run where a node may begin, 15 a token misplaced or missing; then 10. That a measured
// leaf is not abstract is no matter of the text: the first pass over the bytes tells.
pub fn read_text(text: &[u8], out: &mut [u8]) -> Result<usize, Refusal>
    ensures answer { text_paper result ≡ lent_answer bytes_of (reading text.now) (length out.old) }
    ensures buffer { out.new ≡ lent_buffer bytes_of (reading text.now) out.old }
{
    if MOST_BYTES < text.len() {
        return Err(Refusal::Misplaced(MOST_BYTES));
    }
    let names = built_in_names();
    let index = built_in_index();
    let mut strip = blank::<ENOUGH_BYTES>();
    let source = Source {
        bytes: text,
        names: &names,
        index: &index,
    };
    let root = source.read_node(0, 0, 1, 0, &mut strip)?;
    match next_token(text, root.at) {
        Token::End(_) => lend_front(&strip, root.made, out),
        other => Err(Refusal::Misplaced(other.place())),
    }
}
