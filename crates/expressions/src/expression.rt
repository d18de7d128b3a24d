// The first pass over an expression: are its prefix bytes an expression within the limits, and if not, what is the first fault?
//
// Leaf: 0, or 2 if it is measured, type code. Call: 1, function, number of arguments, then the arguments. A node is read through its
// arguments and the arguments through their nodes, so `read_node` and `read_arguments` call each other. They end because the unread bytes
// grow fewer, and since no more than 64 nodes are passed, few calls are open at once. No tree is built: a reading is the offset that it
// got to and the number of nodes that it has passed. Bytes of any number and any value may be handed in.

ghost use Rattle.std.specs.Prelude.{◌≡◌, ◌<◌, length};
ghost use Rattle.expressions.specs.Tree.{most_nodes};
ghost use Rattle.expressions.specs.Reading.{leaf_at, args_at, node_at, expression_of, read_of};
ghost use Rattle.expressions.specs.ReadPaper.{read_paper};
ghost use Rattle.expressions.specs.private.Step.{step_paper, step_of, levels_left};

use scalars::Refusal;
use types::Operand;

// An expression has at most so many nodes.
pub const MOST_NODES: usize = 64;
// The root has depth 1, the deepest node this one.
pub const DEEPEST: usize = 16;
// The type codes of leaves are 0 to this one.
pub const LAST_LEAF: u8 = 156;

// The tags are numbers: they spell bytes that are read and written.
//
// The tag of a constant leaf.
pub const LEAF: u8 = 0;
// The tag of a call.
pub const CALL: u8 = 1;
// The tag of a measured leaf.
pub const MEASURED_LEAF: u8 = 2;

// Where a reading got to: the offset behind what was read, and the nodes passed since the expression's front.
#[derive(Clone, Copy)]
struct Past {
    at: usize,
    nodes: usize,
}

// What is read: bytes, and in them calls to so many functions.
#[derive(Clone, Copy)]
struct Reader<'a> {
    bytes: &'a [u8],
    functions: u8,
}

// Reads a whole expression of calls to so many functions: its number of nodes, or the first fault from front to back, which is 7, 8, 9
// or 17 at its byte offset. Bytes left over behind the root are the last fault that is looked for.
#[tactic(auto, unfolding(crate::specs::Reading::expression_of))]
pub fn read_expression(bytes: &[u8], functions: u8) -> Result<usize, Refusal>
    ensures { read_paper result ≡ read_of (expression_of functions bytes.now) }
{
    let root = Reader { bytes, functions }.read_node(0, 0, 1)?;
    if root.at < bytes.len() {
        return Err(Refusal::IllFormed(root.at));
    }
    Ok(root.nodes)
}

// Offset, nodes and depth are numbers of their own here, as the definitions that are promised take them.
impl<'a> Reader<'a> {
    // Reads the node at `at`, which has `nodes` nodes before it and stands at the depth `depth`.
    #[cycle(read_arguments_read_node)]
    #[tactic(auto, unfolding(crate::specs::Reading::node_at, crate::specs::Reading::tagged_at, crate::specs::Reading::call_at))]
    fn read_node(&self, at: usize, nodes: usize, depth: usize) -> Result<Past, Refusal>
        ensures { step_paper result ≡ step_of (node_at self.now.functions self.now.bytes.now (levels_left depth) at nodes) }
    {
        if self.bytes.len() <= at {
            return Err(Refusal::IllFormed(at));
        }
        if MOST_NODES <= nodes || DEEPEST < depth {
            return Err(Refusal::TooLarge(at));
        }
        match self.bytes[at] {
            LEAF => self.read_leaf(at, nodes, false),
            CALL => {
                let function = at + 1;
                if self.bytes.len() <= function {
                    return Err(Refusal::IllFormed(function));
                }
                if self.functions <= self.bytes[function] {
                    return Err(Refusal::Unknown(function));
                }
                let count = at + 2;
                if self.bytes.len() <= count {
                    return Err(Refusal::IllFormed(count));
                }
                let left = usize::from(self.bytes[count]);
                self.read_arguments(at + 3, left, nodes + 1, depth + 1)
            }
            MEASURED_LEAF => self.read_leaf(at, nodes, true),
            _ => Err(Refusal::IllFormed(at)),
        }
    }

    // Reads `left` nodes one after the other, each at the depth `depth`.
    #[cycle(read_arguments_read_node)]
    #[tactic(auto, unfolding(crate::specs::Reading::args_at))]
    fn read_arguments(
        &self,
        at: usize,
        left: usize,
        nodes: usize,
        depth: usize,
    ) -> Result<Past, Refusal>
        ensures { step_paper result ≡ step_of (args_at (node_at self.now.functions self.now.bytes.now (levels_left depth)) left at nodes) }
    {
        if left == 0 {
            return Ok(Past { at, nodes });
        }
        let one = self.read_node(at, nodes, depth)?;
        self.read_arguments(one.at, left - 1, one.nodes, depth)
    }

    // Reads the leaf whose tag is at `at`, constant or measured.
    #[tactic(auto, unfolding(crate::specs::Reading::leaf_at))]
    fn read_leaf(&self, at: usize, nodes: usize, measured: bool) -> Result<Past, Refusal>
        requires { (at < length self.now.bytes.now) × (nodes < most_nodes) }
        ensures { step_paper result ≡ step_of (leaf_at measured self.now.bytes.now at nodes) }
    {
        let code = at + 1;
        if self.bytes.len() <= code {
            return Err(Refusal::IllFormed(code));
        }
        let leaf = Operand {
            code: self.bytes[code],
            measured,
        };
        if LAST_LEAF < leaf.code {
            return Err(Refusal::Unknown(code));
        }
        if leaf.is_measured_abstract() {
            return Err(Refusal::MeasuredAbstract(code));
        }
        Ok(Past {
            at: at + 2,
            nodes: nodes + 1,
        })
    }
}
