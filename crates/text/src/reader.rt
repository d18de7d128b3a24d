// A text's nodes, read into a strip of prefix bytes.
//
// A node is a type's name, `measured` and a type's name, or a function's name with its arguments in brackets. A node is read through its
// arguments and the arguments through their nodes, so three functions here call each other; they end because the unread bytes of the text
// grow fewer. A call's own three bytes are written when its arguments have been read and counted.
//
// A token that does not belong where it stands is refused there, and so is the text's end, where a token is missing.

ghost use Rattle.std.specs.Prelude.{ℕ, ◌+◌, ◌<◌, ◌≡◌};
ghost use Rattle.expressions.specs.Tree.{most_nodes};
ghost use Rattle.text.specs.private.ReadStep.{StripRoom, LeafRoom, leaf_past, leaf_put, node_in, measured_in, brackets_in, args_in, NodeRead, ArgsRead};

use crate::source::Source;
use crate::strip::put;
use crate::token::{Token, next_token};
use expressions::{CALL, DEEPEST, LEAF, MEASURED_LEAF, MOST_NODES};
use names::{Word, is_measured, word_of};
use scalars::Refusal;

// How far a reading got.
#[derive(Clone, Copy)]
pub(crate) struct Past {
    // The offset behind what was read.
    pub(crate) at: usize,
    // The nodes passed since the text's front.
    pub(crate) nodes: usize,
    // The bytes written since then.
    pub(crate) made: usize,
    // How many nodes were read side by side: one, or of arguments their number.
    pub(crate) count: usize,
}

// Offsets and counts are numbers of their own here, as the definitions that are promised take them, and the room for them is required at each
// call, since it changes from one to the next.
impl<'a> Source<'a> {
    // Reads the node from `at` on, which has `nodes` nodes before it and stands at the depth `depth`. Its bytes are written from `made` on.
    #[cycle(read_arguments_read_brackets_read_node)]
    pub(crate) fn read_node(
        &self,
        at: usize,
        nodes: usize,
        depth: usize,
        made: usize,
        strip: &mut [u8],
    ) -> Result<Past, Refusal>
        requires { StripRoom nodes made }
        ensures { NodeRead self.now.bytes.now at nodes made strip.old strip.new (node_in self.now.names.now self.now.index.now self.now.bytes.now depth at nodes) result }
    {
        match next_token(self.bytes, at) {
            Token::Run(start, end) => {
                if MOST_NODES <= nodes || DEEPEST < depth {
                    return Err(Refusal::TooLarge(start));
                }
                if is_measured(&self.bytes[start..end]) {
                    return self.read_measured(end, nodes, made, strip);
                }
                let (names, index) = (self.names, self.index);
                match word_of(&self.bytes[start..end], names, index) {
                    None => Err(Refusal::UnknownRun(start)),
                    Some(Word::TypeName(code)) => Ok(put_leaf(strip, LEAF, code, end, nodes, made)),
                    Some(Word::FunctionName(function)) => {
                        let past = self.read_brackets(end, nodes + 1, depth + 1, made + 3, strip)?;
                        put(strip, made, CALL);
                        put(strip, made + 1, function);
                        // At most 64.
                        put(strip, made + 2, past.count as u8);
                        Ok(Past { count: 1, ..past })
                    }
                }
            }
            other => Err(Refusal::Misplaced(other.place())),
        }
    }

    // Reads the type of a measured leaf, from behind `measured` on, and nothing else: what is no type is misplaced there.
    fn read_measured(
        &self,
        at: usize,
        nodes: usize,
        made: usize,
        strip: &mut [u8],
    ) -> Result<Past, Refusal>
        requires { LeafRoom nodes made }
        ensures { NodeRead self.now.bytes.now at nodes made strip.old strip.new (measured_in self.now.names.now self.now.index.now self.now.bytes.now at nodes) result }
    {
        match next_token(self.bytes, at) {
            Token::Run(start, end) => {
                let (names, index) = (self.names, self.index);
                match word_of(&self.bytes[start..end], names, index) {
                    Some(Word::TypeName(code)) => {
                        Ok(put_leaf(strip, MEASURED_LEAF, code, end, nodes, made))
                    }
                    Some(Word::FunctionName(_)) => Err(Refusal::Misplaced(start)),
                    None => Err(Refusal::Misplaced(start)),
                }
            }
            other => Err(Refusal::Misplaced(other.place())),
        }
    }

    // Reads a call's arguments in their brackets, from behind its name on.
    #[cycle(read_arguments_read_brackets_read_node)]
    fn read_brackets(
        &self,
        at: usize,
        nodes: usize,
        depth: usize,
        made: usize,
        strip: &mut [u8],
    ) -> Result<Past, Refusal>
        requires { StripRoom nodes made }
        ensures { ArgsRead self.now.bytes.now at nodes made strip.old strip.new (brackets_in self.now.names.now self.now.index.now self.now.bytes.now depth at nodes) result }
    {
        match next_token(self.bytes, at) {
            Token::Open(open) => {
                if let Token::Close(close) = next_token(self.bytes, open + 1) {
                    return Ok(Past {
                        at: close + 1,
                        nodes,
                        made,
                        count: 0,
                    });
                }
                self.read_arguments(open + 1, nodes, depth, made, strip)
            }
            other => Err(Refusal::Misplaced(other.place())),
        }
    }

    // Reads one argument or more from `at` on, each at the depth `depth`, and the closing bracket.
    #[cycle(read_arguments_read_brackets_read_node)]
    fn read_arguments(
        &self,
        at: usize,
        nodes: usize,
        depth: usize,
        made: usize,
        strip: &mut [u8],
    ) -> Result<Past, Refusal>
        requires { StripRoom nodes made }
        ensures { (left : ℕ) → most_nodes < left + nodes → ArgsRead self.now.bytes.now at nodes made strip.old strip.new (args_in self.now.names.now self.now.index.now self.now.bytes.now depth left at nodes) result }
    {
        let one = self.read_node(at, nodes, depth, made, strip)?;
        match next_token(self.bytes, one.at) {
            Token::Close(close) => Ok(Past {
                at: close + 1,
                ..one
            }),
            Token::Comma(comma) => {
                let others = self.read_arguments(comma + 1, one.nodes, depth, one.made, strip)?;
                Ok(Past {
                    count: others.count + 1,
                    ..others
                })
            }
            other => Err(Refusal::Misplaced(other.place())),
        }
    }
}

// Writes a leaf of this tag and type from `made` on. Its text ends before `end`, and `nodes` nodes stand before it.
fn put_leaf(strip: &mut [u8], tag: u8, code: u8, end: usize, nodes: usize, made: usize) -> Past
    requires { LeafRoom nodes made }
    ensures past { result ≡ leaf_past end nodes made }
    ensures written { strip.new ≡ leaf_put strip.old made tag code }
{
    put(strip, made, tag);
    put(strip, made + 1, code);
    Past {
        at: end,
        nodes: nodes + 1,
        made: made + 2,
        count: 1,
    }
}
