// A mask of rules, read from lent bytes and written to them.
//
// A mask is a `u64`, eight bytes. Of more rules than it has bits for, the first eight bytes are read, and zeros are written behind them.

ghost use Rattle.std.specs.Prelude.{◌≡◌, ◌^◌, ◌≤◌, leb, length, take};
ghost use Rattle.scalars.specs.Paper.{verdict_paper};
ghost use Rattle.lending.specs.Masks.{bytes_for, mask_in, mask_paper, mask_read, room_for, lent_after};

use scalars::Refusal;

// The bytes of a `u64`.
const WORD_BYTES: usize = 8;

// The mask that bytes hold for so many rules; bytes beyond those that the rules need are not read. Refused 8 at the number of bytes
// where there are fewer, then 7 for a bit that is no rule's.
pub fn mask_in(bytes: &[u8], rules: usize) -> Result<u64, Refusal>
    ensures { mask_paper result ≡ mask_read rules bytes.now }
{
    let needed = bytes_for(rules);
    if bytes.len() < needed {
        return Err(Refusal::IllFormed(bytes.len()));
    }
    if stray(bytes, rules) {
        return Err(Refusal::Unknown(0));
    }
    Ok(word_in(bytes, WORD_BYTES.min(needed)))
}

// How many bytes a mask of so many rules takes.
fn bytes_for(rules: usize) -> usize
    ensures { result ≡ bytes_for rules }
{
    rules.div_ceil(8)
}

// Whether the last of the bytes that the rules need has a bit that is no rule's.
fn stray(bytes: &[u8], rules: usize) -> bool
    requires { bytes_for rules ≤ length bytes.now }
    ensures { result ≡ leb (2 ^ rules) (mask_in (take (bytes_for rules) bytes.now)) }
{
    if rules == 0 {
        return false;
    }
    let last = (rules - 1) / 8;
    let used = rules - last * 8;
    1u16 << used <= u16::from(bytes[last])
}

// The mask that the first n bytes hold, from the highest down. A loop, since a closure that folds knows no bound of the mask so far; bytes
// and their number, as the definition takes them. Not `from_le_bytes`, since there may be fewer than eight.
fn word_in(bytes: &[u8], n: usize) -> u64
    requires { (n ≤ 8) × (n ≤ length bytes.now) }
    ensures { result ≡ mask_in (take n bytes.now) }
{
    let mut mask = 0;
    for i in (0..n).rev() {
        mask = mask * 256 + u64::from(bytes[i]);
    }
    mask
}

// Puts a mask of so many rules into the front of the lent bytes; those behind keep theirs. Refused 10, with the bytes needed, where there
// are fewer, which then keep theirs.
pub fn lend_mask(mask: u64, rules: usize, out: &mut [u8]) -> Result<(), Refusal>
    ensures room { verdict_paper result ≡ room_for rules out.old }
    ensures lent { out.new ≡ lent_after rules mask out.old }
{
    let needed = bytes_for(rules);
    if out.len() < needed {
        return Err(Refusal::NoRoom(needed));
    }
    let mut rest = mask;
    // Not `to_le_bytes`: more bytes may be needed than the eight of a word.
    for i in 0..needed {
        out[i] = (rest % 256) as u8;
        rest /= 256;
    }
    Ok(())
}
