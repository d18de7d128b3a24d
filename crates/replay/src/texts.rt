// Texts read and written. A record is 0 for a text that is read or 1 for an expression that is written, the two bytes of the buffer's size,
// the number of the answer, the two bytes of its place, then the question as a part, and behind it what is put into the buffer.

use crate::answers::{NONE, is_refusal};
use crate::parts::{first, rest};
use crate::records::word;
use crate::typings::holds;
use scalars::Refusal;
use text::{read_text, write_text};

// The kind of a record whose text is read.
const READ: u8 = 0;

// Whether the answer is the stored one, and the buffer is left as it should be.
pub fn agrees(record: &[u8]) -> bool {
    agrees_in(record, &mut [NONE; 2048])
}

// Whether the answer is the stored one, with so many bytes of the space as the buffer. As in `typings`, with other fields of the record and
// another question.
fn agrees_in(record: &[u8], space: &mut [u8]) -> bool {
    let &[kind, _, _, number, _, _, _, _, ..] = record else {
        return false;
    };
    let size = word(record, 1);
    if space.len() < size {
        return false;
    }
    let question = first(&record[6..]);
    let written = rest(&record[6..]);
    let answer = asked(kind, question, &mut space[..size]);
    holds(space, written) && answer_agrees(answer, number, word(record, 4), written)
}

// The answer to a question.
fn asked(kind: u8, question: &[u8], buffer: &mut [u8]) -> Result<usize, Refusal> {
    if kind == READ {
        return read_text(question, buffer);
    }
    write_text(question, buffer)
}

// Whether the answer has this number and place, and the length of what is written; a refusal has nothing written.
fn answer_agrees(answer: Result<usize, Refusal>, number: u8, place: usize, written: &[u8]) -> bool {
    match answer {
        Err(why) => written.is_empty() && is_refusal(why, number, place),
        Ok(len) => number == 0 && place == 0 && len == written.len(),
    }
}
