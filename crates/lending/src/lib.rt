// What goes into lent memory and comes from it: bytes in front of a lent buffer; and masks of rules as lent bytes, low byte first, as many
// bytes as the rules need, eight rules a byte. Bit i of a mask stands for rule i.
//
// Every public function ends on every input and tests it itself.
#![tactic(auto)]

mod bytes;
mod masks;

pub use bytes::lend_bytes;
pub use masks::{lend_mask, mask_in};
