// A mask of rules that is answered, put into lent bytes.

ghost use Rattle.std.specs.Prelude.{◌≡◌};
ghost use Rattle.scalars.specs.Paper.{verdict_paper};
ghost use Rattle.azwukran.specs.Lent.{mask_left, in_room, lent_by};

use lending::lend_mask;
use scalars::Refusal;

// The mask, over so many rules, goes in front of the lent bytes. Refused as the mask is, then 10 with the bytes needed where there are
// fewer; the lent bytes are then as they were.
#[tactic(auto, unfolding(crate::specs::Lent::in_room, crate::specs::Lent::lent_by))]
pub(crate) fn lend_answer(
    mask: Result<u64, Refusal>,
    rules: usize,
    out: &mut [u8],
) -> Result<(), Refusal>
    ensures answer { verdict_paper result ≡ in_room rules out.old (mask_left mask) }
    ensures lent { out.new ≡ lent_by rules (mask_left mask) out.old }
{
    lend_mask(mask?, rules, out)
}
