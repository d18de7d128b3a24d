// Calls that are refused. A record is the function, the number and the place of the refusal, then the types of the operands as a part, and
// behind it their marks.

use crate::answers::is_refusal;
use crate::parts::{first, rest};
use calls::call_of;

// Whether the call is refused by that number at that place, with the concrete-only switch off.
pub fn agrees(record: &[u8]) -> bool {
    let [function, number, place, operands @ ..] = record else {
        return false;
    };
    match call_of(*function, first(operands), rest(operands), false) {
        Ok(_) => false,
        Err(why) => is_refusal(why, *number, usize::from(*place)),
    }
}
