// Single calls of the built-in functions, their rules, and the consensus of scalars.

ghost use Rattle.std.specs.Prelude.{◌≡◌, length};
ghost use Rattle.types.specs.Conversion.{consensus_of};
ghost use Rattle.functions.specs.Functions.{function_count, listing_of, rule_at};
ghost use Rattle.calls.specs.Call.{call_of, survivors_of_call};
ghost use Rattle.c_answers.specs.Answers.{chosen_for_c, rule_for_c, consensus_for_c, mask_for_c};
ghost use Rattle.azwukran.specs.Questions.{on, base_of};
ghost use Rattle.azwukran.specs.Lent.{in_room, lent_by};

use crate::lent::lend_answer;
use c_answers::{ChosenForC, ConsensusForC, MaskForC, RuleForC};
use calls::{call_of, survivors_of};
use functions::{rule_at, rule_total};
use scalars::Scalar;
use types::automatic_conversion_consensus;

// What stands for no base, as C hands it in.
const NO_BASE: u8 = 255;

// The rule that a call means, with its index in the full listing and the mark of its result. The operands are their types and, beside
// them, their marks. The concrete-only switch is off at 0, and on at anything else, as C has it.
pub fn azwukran_call(function: u8, types: &[u8], marks: &[u8], switch: u8) -> ChosenForC
    ensures { result ≡ chosen_for_c (call_of function_count listing_of (on switch) function types.now marks.now) }
{
    call_of(function, types, marks, switch != 0).into()
}

// The rules of the full listing that survive a call, as a mask in front of the lent bytes. Refused as the call is, then 10 with the bytes
// needed where there are fewer.
pub fn azwukran_survivors(
    function: u8,
    types: &[u8],
    marks: &[u8],
    switch: u8,
    out: &mut [u8],
) -> MaskForC
    ensures answer { result ≡ mask_for_c (in_room (length (listing_of function)) out.old (survivors_of_call function_count listing_of (on switch) function types.now marks.now)) }
    ensures lent { out.new ≡ lent_by (length (listing_of function)) (survivors_of_call function_count listing_of (on switch) function types.now marks.now) out.old }
{
    let survivors = survivors_of(function, types, marks, switch != 0);
    lend_answer(survivors.map(|set| set.0), rules_of(function), out).into()
}

// How many rules a function has; an unknown one has none.
fn rules_of(function: u8) -> usize
    ensures { result ≡ length (listing_of function) }
{
    match rule_total(function) {
        Ok(n) => usize::from(n),
        Err(_) => 0,
    }
}

// The rule at an index of a function's full listing.
pub fn azwukran_rule(function: u8, index: u8) -> RuleForC
    ensures { result ≡ rule_for_c (rule_at function index) }
{
    rule_at(function, index).into()
}

// The scalar on which components agree, from a base or none, and who gave it.
pub fn azwukran_consensus(base: u8, components: &[u8]) -> ConsensusForC
    ensures { result ≡ consensus_for_c (consensus_of (base_of base) components.now) }
{
    automatic_conversion_consensus(base_of(base), components).into()
}

// The base of a consensus; 255 is none.
#[tactic(auto, unfolding(crate::specs::Questions::base_of))]
fn base_of(number: u8) -> Option<Scalar>
    ensures { result ≡ base_of number }
{
    if number == NO_BASE {
        return None;
    }
    Some(Scalar(number))
}
