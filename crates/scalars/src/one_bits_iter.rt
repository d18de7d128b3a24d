// A walk over the set bits of a `u64`, lowest first.
//
// The walk yields masks, not bit numbers. A mask and a number are two types, so that nothing is ever indexed by a mask; a mask's
// number is had by counting trailing zeros.

ghost use Rattle.std.specs.Prelude.{◌≡◌, ℕ, ◌+◌, ◌^◌, leb, Ok};
ghost use Rattle.std.specs.Iterator.{item_count};
ghost use Rattle.scalars.specs.Mask.{choose, bits, head_or};
ghost use Rattle.scalars.specs.OneBits.{listed, unlisted, members_within};
ghost use Rattle.scalars.specs.Paper.{members_paper};
ghost use Rattle.scalars.specs.Walk.{one_bits, OneBitsGive};

use crate::refusal::{Refusal, UNUSED};

// The bits that are still to come.
#[derive(Clone, Copy)]
pub struct OneBitsIter(pub u64);

// The mask of one bit.
#[derive(Clone, Copy)]
pub struct OneBit(pub u64);

// The number of a bit, 0 to 63.
#[derive(Clone, Copy)]
pub struct BitNumber(pub u8);

// The members of a set of at most 16: how many, and their numbers, lowest first; entries not in use hold `UNUSED`.
// An array beside its count: nothing is on a heap.
#[derive(Clone, Copy)]
pub struct Members {
    pub count: u8,
    pub numbers: [u8; 16],
}

impl Iterator for OneBitsIter {
    type Item = OneBit;

    ghost next_gives = { OneBitsGive };

    ghost remaining = { item_count one_bits };

    // The lowest bit's mask; it is taken from the walk.
    fn next(&mut self) -> Option<OneBit> {
        if self.0 == 0 {
            return None;
        }
        let mask = 1 << self.0.trailing_zeros();
        self.0 -= mask;
        Some(OneBit(mask))
    }
}

impl OneBit {
    // The number of the lowest bit that is set; 64 where none is.
    pub fn number(self) -> BitNumber
        ensures { result.0 ≡ head_or 64 (bits 64 self.0) }
    {
        BitNumber(self.0.trailing_zeros() as u8)
    }
}

// The members of a mask, lowest first.
pub fn members_of(mask: u16) -> Members
    ensures { members_paper (Ok result) ≡ listed (bits 16 mask) }
{
    let mut members = Members {
        count: 0,
        numbers: [UNUSED; 16],
    };
    for bit in OneBitsIter(u64::from(mask)) {
        members.numbers[usize::from(members.count)] = bit.number().0;
        members.count += 1;
    }
    members
}

// The members of a mask with no bit above those of `all`, which are the lowest ones. Refused 7 for an unknown bit.
pub fn members_within(mask: u16, all: u16) -> Result<Members, Refusal>
    ensures answer { members_paper result ≡ choose (leb mask all) (listed (bits 16 mask)) unlisted }
    ensures within { (n : ℕ) → all + 1 ≡ 2 ^ n → members_paper result ≡ members_within n mask }
{
    if all < mask {
        Err(Refusal::Unknown(0))
    } else {
        Ok(members_of(mask))
    }
}
