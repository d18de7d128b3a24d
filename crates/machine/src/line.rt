// The numbers that spell a worksheet's lines, for those who write them and for the machine that runs them. An expression's tags are
// numbered apart, in the crate `expressions`. A line has four bytes, the first of them its kind.

// The kind of a leaf's line.
pub const LEAF_LINE: u8 = 0;
// The kind of a call's line.
pub const CALL_LINE: u8 = 1;
// The kind of a conversion's line.
pub const CONVERSION_LINE: u8 = 2;
// What a byte holds that its line has no use for.
pub const SPARE: u8 = 0;
