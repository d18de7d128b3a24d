// An expression's nodes, written into a strip of text.
//
// The bytes are those that the first pass accepted. One space stands after each comma and between `measured` and its type, and no other.

ghost use Rattle.std.specs.Prelude.{◌≡◌, ◌+◌, ◌≤◌, length};
ghost use Rattle.std.proofs.lemmas.List.Edits.{sets};
ghost use Rattle.text.specs.Writing.{leaf_text};
ghost use Rattle.text.specs.private.WriteStep.{text_room, NodeThere, NodeWritten, RestThere, RestWritten};

use crate::source::Source;
use crate::token::{CLOSE, COMMA, OPEN, SPACE};
use expressions::{CALL, MEASURED_LEAF, MOST_NODES};
use names::{TYPE_COUNT, measured_name, spelling};

// The bytes of the text of any expression within the limits: a name has at most 22, `measured` and the space behind it nine, and a node
// brings at most two beside them.
pub(crate) const ENOUGH_BYTES: usize = 33 * MOST_NODES;

// How far the writing got: the offset behind what was written, and the text's length so far.
#[derive(Clone, Copy)]
pub(crate) struct Turn {
    pub(crate) at: usize,
    pub(crate) made: usize,
}

// Offset and length are numbers of their own here, as the definitions that are promised take them.
impl<'a> Source<'a> {
    // Writes the node at `at`, which the first pass has found there, from `made` on.
    #[cycle(write_node_write_rest)]
    pub(crate) fn write_node(&self, at: usize, made: usize, strip: &mut [u8; ENOUGH_BYTES]) -> Turn
        requires { NodeThere self.now.bytes.now self.now.names.now self.now.index.now at made }
        ensures { NodeWritten self.now.bytes.now self.now.names.now self.now.index.now at made strip.old strip.new result }
    {
        let (names, index) = (self.names, self.index);
        let tag = self.bytes[at];
        // Widened by `as`, here and below: with `From` every answer of this function carries an equation more.
        let code = self.bytes[at + 1] as usize;
        if tag != CALL {
            let full = write_leaf(
                strip,
                made,
                tag == MEASURED_LEAF,
                spelling(names, index, code),
            );
            return Turn {
                at: at + 2,
                made: full,
            };
        }
        let count = self.bytes[at + 2] as usize;
        let named = put_all(strip, made, spelling(names, index, TYPE_COUNT + code));
        strip[named] = OPEN;
        if count == 0 {
            strip[named + 1] = CLOSE;
            return Turn {
                at: at + 3,
                made: named + 2,
            };
        }
        let one = self.write_node(at + 3, named + 1, strip);
        self.write_rest(one.at, count - 1, one.made, strip)
    }

    // Writes `left` further arguments, from `made` on, and the closing bracket.
    #[cycle(write_node_write_rest)]
    fn write_rest(
        &self,
        at: usize,
        left: usize,
        made: usize,
        strip: &mut [u8; ENOUGH_BYTES],
    ) -> Turn
        requires { RestThere self.now.bytes.now self.now.names.now self.now.index.now at left made }
        ensures { RestWritten self.now.bytes.now self.now.names.now self.now.index.now at left made strip.old strip.new result }
    {
        if left == 0 {
            strip[made] = CLOSE;
            return Turn { at, made: made + 1 };
        }
        strip[made] = COMMA;
        strip[made + 1] = SPACE;
        let one = self.write_node(at, made + 2, strip);
        self.write_rest(one.at, left - 1, one.made, strip)
    }
}

// Writes a leaf, measured or not, whose type has this name, from an offset on. Answers the offset behind it.
fn write_leaf(strip: &mut [u8; ENOUGH_BYTES], at: usize, measured: bool, name: &[u8]) -> usize
    requires { at + length (leaf_text measured name.now) ≤ text_room }
    ensures offset { result ≡ at + length (leaf_text measured name.now) }
    ensures written { strip.new ≡ sets strip.old at (leaf_text measured name.now) }
{
    if measured {
        let full = put_all(strip, at, &measured_name());
        strip[full] = SPACE;
        return put_all(strip, full + 1, name);
    }
    put_all(strip, at, name)
}

// Puts bytes on the strip from an offset on, where they have room. Answers the offset behind them. One by one: names are short, and a copy of
// the whole asks the C library for `memmove`.
fn put_all(strip: &mut [u8; ENOUGH_BYTES], at: usize, bytes: &[u8]) -> usize
    requires { at + length bytes.now ≤ text_room }
    ensures offset { result ≡ at + length bytes.now }
    ensures written { strip.new ≡ sets strip.old at bytes.now }
{
    for (i, byte) in bytes.iter().enumerate() {
        strip[at + i] = *byte;
    }
    at + bytes.len()
}
