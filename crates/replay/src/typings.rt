// Expressions and their worksheets. A record is the concrete-only switch, the two bytes of the buffer's size, the number of the answer,
// the two bytes of its place, its type, its mark, then the expression as a part, and behind it the worksheet.

use crate::answers::{NONE, is_refusal};
use crate::parts::{first, rest};
use crate::records::word;
use machine::run_worksheet;
use worksheet::type_expression;

// The parts of a record start here.
const PARTS: usize = 8;

// Whether the answer is the stored one, and the buffer is left as it should be.
pub fn agrees(record: &[u8]) -> bool {
    agrees_in(record, &mut [NONE; 512])
}

// Whether the answer is the stored one, with so many bytes of the space as the buffer. Afterwards the worksheet must stand in front of
// the space, and nothing be written behind it.
fn agrees_in(record: &[u8], space: &mut [u8]) -> bool {
    let &[switch, _, _, number, _, _, code, mark, _, _, ..] = record else {
        return false;
    };
    let size = word(record, 1);
    if 1 < switch || space.len() < size {
        return false;
    }
    let bytes = first(&record[PARTS..]);
    let sheet = rest(&record[PARTS..]);
    let answer = type_expression(bytes, switch == 1, &mut space[..size]);
    holds(space, sheet)
        && match answer {
            Err(why) => {
                code == NONE
                    && mark == NONE
                    && sheet.is_empty()
                    && is_refusal(why, number, word(record, 4))
            }
            Ok(typed) => {
                number == 0
                    && word(record, 4) == 0
                    && typed.result.code == code
                    && typed.result.mark() == mark
                    && typed.len == sheet.len()
                    && runs(sheet, code, mark)
            }
        }
}

// Whether the sheet stands in front of the bytes, and nothing was written behind it.
pub fn holds(bytes: &[u8], sheet: &[u8]) -> bool {
    match bytes.get(..sheet.len()) {
        None => false,
        Some(front) => front == sheet && bytes[sheet.len()..].iter().all(|byte| *byte == NONE),
    }
}

// Whether the strict machine runs the sheet to its end, and leaves one operand, of this type and mark.
fn runs(sheet: &[u8], code: u8, mark: u8) -> bool {
    match run_worksheet(sheet) {
        Err(_) => false,
        Ok(end) => {
            end.operands == 1
                && match end.top {
                    None => false,
                    Some(top) => top.code == code && top.mark() == mark,
                }
        }
    }
}
