// What a single call comes to where it chooses no rule, apart from where it stands: one of three reasons. Number and place of a refusal are
// given to it by `From` for a call by itself, and by a `match` in the crate `worksheet` for a call in an expression.

ghost use Rattle.std.specs.Prelude.{◌≡◌, []};
ghost use Rattle.scalars.specs.Paper.{refusal, refusal_paper};
ghost use Rattle.calls.specs.Choice.{none_left};
ghost use Rattle.calls.specs.OutcomePaper.{refusal_for};

use lists::Chosen;
use rules::Part;
use scalars::Refusal;

// Why a call chooses no rule.
#[derive(Clone, Copy)]
pub enum NoRule {
    // The number of operands is not that of the rules.
    WrongCount,
    // The step by this part of this operand leaves no rule: none of its shape, or of those none with a fitting number.
    NoneAfter(Part, usize),
    // The concrete-only step left none of the rules that take the operands.
    NoneConcrete,
}

// The answer to a call by itself.
#[derive(Clone, Copy)]
pub struct Called {
    // The chosen rule, with its index in the function's full listing.
    pub chosen: Chosen,
    // Whether the result is measured.
    pub measured: bool,
}

// The refusal where a step by this part leaves no rule: 6 by its shape, 16 by its number.
pub fn none_left(part: Part, place: usize) -> Refusal
    ensures { refusal_paper result ≡ refusal (none_left part) place [] }
{
    match part {
        Part::Shape => Refusal::WrongShape(place),
        Part::Number => Refusal::WrongNumber(place),
    }
}

// How a call by itself is refused: 5 at 0 for a wrong count, 6 or 16 at 1 + index for an operand, 1 at 0 for the concrete-only step. The
// place of every operand that a call has fits a `usize`.
impl From<NoRule> for Refusal {
    ghost from_gives = { λ why answer. refusal_paper answer ≡ refusal_for why };

    fn from(why: NoRule) -> Refusal {
        match why {
            NoRule::WrongCount => Refusal::WrongCount(0),
            NoRule::NoneAfter(part, operand) => none_left(part, operand.wrapping_add(1)),
            NoRule::NoneConcrete => Refusal::EmptySet(0),
        }
    }
}
