// What the stored answers have in common.

use scalars::{Refusal, UNUSED};

// No value, in a stored answer.
pub const NONE: u8 = UNUSED;

// Whether the refusal has this number and this place.
pub fn is_refusal(why: Refusal, number: u8, place: usize) -> bool {
    why.number() == number && why.place() == place
}
