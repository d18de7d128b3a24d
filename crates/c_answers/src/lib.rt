// Answers for callers in C: for each kind of answer a struct of plain numbers, laid out as C lays it out.
//
// A struct has the refusal's number, 0 where the question is accepted, and its place, both in full; between them stand the values. What a
// refusal leaves out is 255, and so is the mark of a rule that was chosen without operands.
#![tactic(auto)]

mod answers;
mod from_answers;

pub use answers::{
    ChosenForC, ConsensusForC, MaskForC, NO_VALUE, RegularForC, RuleForC, RunForC, STOPPED,
    TextForC, TypeForC,
};
