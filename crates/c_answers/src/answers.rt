// The structs, one for each kind of answer. Kinds, marks and refusals are numbers here, since these are the C interface's.

use scalars::UNUSED;

// What stands for no value in a field as wide as a place.
pub const NO_VALUE: usize = UNUSED as usize;

// The base gave the scalar of a consensus, or a component did.
pub(crate) const BY_BASE: u8 = 0;

pub(crate) const BY_COMPONENT: u8 = 1;

// The number of a machine's stop, which is no refusal.
pub const STOPPED: u8 = 255;

// A chosen rule, with its index.
#[repr(C)]
#[derive(Clone, Copy)]
pub struct ChosenForC {
    pub number: u8,
    pub index: u8,
    // The arguments' types, 255 where the rule has no such argument.
    pub a0: u8,
    pub a1: u8,
    pub a2: u8,
    pub a3: u8,
    // How many arguments there are.
    pub count: u8,
    pub result: u8,
    // The call's mark: 0 constant, 1 measured, 255 where there is none.
    pub mark: u8,
    pub place: usize,
}

// A rule.
#[repr(C)]
#[derive(Clone, Copy)]
pub struct RuleForC {
    pub number: u8,
    pub a0: u8,
    pub a1: u8,
    pub a2: u8,
    pub a3: u8,
    pub count: u8,
    pub result: u8,
    pub place: usize,
}

// A Regular set: the masks of its constructors and scalars, and its conclusion by number.
#[repr(C)]
#[derive(Clone, Copy)]
pub struct RegularForC {
    pub number: u8,
    pub arity: u8,
    pub constructors: u16,
    pub scalars: u16,
    pub conclusion: u8,
    pub place: usize,
}

// The scalar of a consensus, and who gave it.
#[repr(C)]
#[derive(Clone, Copy)]
pub struct ConsensusForC {
    pub number: u8,
    pub scalar: u8,
    // BY_BASE or BY_COMPONENT.
    pub giver: u8,
    // The number of the component that gave the scalar, as wide as a place.
    pub component: usize,
    pub place: usize,
}

// The type of an expression, and its worksheet's length.
#[repr(C)]
#[derive(Clone, Copy)]
pub struct TypeForC {
    pub number: u8,
    pub code: u8,
    // The expression's mark: 0 constant, 1 measured, 255 where there is none.
    pub mark: u8,
    // How many bytes the worksheet takes.
    pub length: usize,
    pub place: usize,
}

// An expression's bytes or its text, which stand in lent bytes.
#[repr(C)]
#[derive(Clone, Copy)]
pub struct TextForC {
    pub number: u8,
    // How many bytes were put there.
    pub length: usize,
    pub place: usize,
}

// How a worksheet ran: number 0 for an end, 255 for a stop, whose line is the place.
#[repr(C)]
#[derive(Clone, Copy)]
pub struct RunForC {
    pub number: u8,
    // The type of the topmost operand.
    pub top: u8,
    // The topmost operand's mark: 0 constant, 1 measured, 255 where there is none.
    pub mark: u8,
    // How many operands are left.
    pub operands: usize,
    pub place: usize,
}

// The answer to a question whose value is a mask, which stands in lent bytes.
#[repr(C)]
#[derive(Clone, Copy)]
pub struct MaskForC {
    pub number: u8,
    pub place: usize,
}
