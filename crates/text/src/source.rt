// What is read: a text, or the bytes of an expression. Beside it stand the names of types and functions and their index, which reading and
// writing lend on from node to node. These are arrays, so that every node knows how long they are, and none asks anew.

use names::{INDEX_LENGTH, NAMES_LENGTH};

#[derive(Clone, Copy)]
pub(crate) struct Source<'a> {
    pub(crate) bytes: &'a [u8],
    pub(crate) names: &'a [u8; NAMES_LENGTH],
    pub(crate) index: &'a [u8; INDEX_LENGTH],
}
