// The refusals of document 01's table, 'Answers by number', and of document 02's requests.
//
// The crate panics, asserts or hands out an index; here each of these is an answer with a number and a place. A case that has a
// place of its own carries it: a byte offset, an index, or the bytes that are needed. The other cases stand at place 0.

ghost use Rattle.std.specs.Prelude.{◌≡◌, Some};
ghost use Rattle.scalars.specs.Refusal.{numbered, printed};

use std::fmt;

// What a field or an entry not in use holds.
pub const UNUSED: u8 = 255;

#[derive(Clone, Copy)]
pub enum Refusal {
    // 1: a count, a preferred rule, a preferred scalar or a size is asked of an empty set.
    EmptySet(usize),
    // 2: a preferred rule or a size is asked of a set with several constructors.
    SeveralConstructors,
    // 3: more rules than a List holds, or more arguments than a rule has.
    TooMany,
    // 4: allowed types asked at an index that some member lacks.
    NoSuchArgument(usize),
    // 5: a number of arguments that no rule takes.
    WrongCount(usize),
    // 6: in a call, no rule is left with this argument's shape.
    WrongShape(usize),
    // 7: an unknown function, type code or set bit.
    Unknown(usize),
    // 8: an expression cut short, an unknown tag, or bytes left over.
    IllFormed(usize),
    // 9: one node too many, or one level too deep.
    TooLarge(usize),
    // 10: a worksheet, an expression or a text longer than the lent buffer; the place is the bytes needed.
    NoRoom(usize),
    // 11: a consensus over nothing, with no base.
    NothingToCombine,
    // 12: no consensus; the place is the component.
    NoConsensus(usize),
    // 13: a Frexp or Modf conclusion for a matrix, or for a scalar but F32, F16 and F64.
    NoConclusion,
    // 14: in a text, an unknown run where a node may begin.
    UnknownRun(usize),
    // 15: in a text, a token that is misplaced or missing, or a text that is too long.
    Misplaced(usize),
    // 16: in a call, rules are left with this argument's shape, and none with a number type that its own converts to.
    WrongNumber(usize),
    // 17: a measured operand of an abstract type.
    MeasuredAbstract(usize),
}

impl Refusal {
    // The refusal's number, 1 to 17.
    pub fn number(self) -> u8
        ensures { result ≡ (numbered self).0 }
    {
        match self {
            Refusal::EmptySet(_) => 1,
            Refusal::SeveralConstructors => 2,
            Refusal::TooMany => 3,
            Refusal::NoSuchArgument(_) => 4,
            Refusal::WrongCount(_) => 5,
            Refusal::WrongShape(_) => 6,
            Refusal::Unknown(_) => 7,
            Refusal::IllFormed(_) => 8,
            Refusal::TooLarge(_) => 9,
            Refusal::NoRoom(_) => 10,
            Refusal::NothingToCombine => 11,
            Refusal::NoConsensus(_) => 12,
            Refusal::NoConclusion => 13,
            Refusal::UnknownRun(_) => 14,
            Refusal::Misplaced(_) => 15,
            Refusal::WrongNumber(_) => 16,
            Refusal::MeasuredAbstract(_) => 17,
        }
    }

    // The refusal's place; 0 where the table gives none.
    pub fn place(self) -> usize
        ensures { result ≡ (numbered self).1 }
    {
        match self {
            Refusal::EmptySet(at)
            | Refusal::NoSuchArgument(at)
            | Refusal::WrongCount(at)
            | Refusal::WrongShape(at)
            | Refusal::Unknown(at)
            | Refusal::IllFormed(at)
            | Refusal::TooLarge(at)
            | Refusal::NoRoom(at)
            | Refusal::NoConsensus(at)
            | Refusal::UnknownRun(at)
            | Refusal::Misplaced(at)
            | Refusal::WrongNumber(at)
            | Refusal::MeasuredAbstract(at) => at,
            Refusal::SeveralConstructors
            | Refusal::TooMany
            | Refusal::NothingToCombine
            | Refusal::NoConclusion => 0,
        }
    }
}

// The number and the place, as programs print a refusal.
impl fmt::Display for Refusal {
    ghost output = { λ why. Some (printed why) };

    fn fmt<W: fmt::Write>(&self, f: &mut fmt::Formatter<W>) -> fmt::Result {
        write!(f, "{} {}", self.number(), self.place())
    }
}
