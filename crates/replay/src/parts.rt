// A record of several parts: each part has the form of a record, and one stands behind another.

use crate::records::split_record;

// The bytes of the first part; none where it is cut short.
pub fn first(parts: &[u8]) -> &[u8] {
    match split_record(parts) {
        Some((part, _)) => part,
        None => &parts[..0],
    }
}

// The parts behind the first; all of them where it is cut short.
pub fn rest(parts: &[u8]) -> &[u8] {
    match split_record(parts) {
        Some((_, behind)) => behind,
        None => parts,
    }
}
