// The one way of what was made into lent memory.

ghost use Rattle.std.specs.Prelude.{◌≡◌, ◌≤◌, length, take};
ghost use Rattle.lending.specs.Bytes.{placed};
ghost use Rattle.text.specs.TextPaper.{text_paper};
ghost use Rattle.text.specs.Lent.{made_answer};

use lending::lend_bytes;
use scalars::Refusal;

// Puts the first `len` of the bytes that were made into the front of the lent buffer, if they fit, and answers how many they are.
// Bytes and their number, so that the bound is required once, and not shown at each slice.
pub(crate) fn lend_front(made: &[u8], len: usize, out: &mut [u8]) -> Result<usize, Refusal>
    requires { len ≤ length made.now }
    ensures answer { text_paper result ≡ made_answer len (length out.old) }
    ensures buffer { out.new ≡ placed (take len made.now) out.old }
{
    lend_bytes(&made[..len], out)?;
    Ok(len)
}
