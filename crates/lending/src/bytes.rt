// Bytes put in front of lent memory, all of them or none.

ghost use Rattle.std.specs.Prelude.{◌≡◌, length};
ghost use Rattle.scalars.specs.Paper.{verdict_paper};
ghost use Rattle.lending.specs.Bytes.{room_for, placed};

use scalars::Refusal;

// Puts the bytes into the front of the lent buffer; what stands behind them stays. Refused 10, with the bytes needed, where they do not
// fit, and the buffer is then as it was.
pub fn lend_bytes(bytes: &[u8], out: &mut [u8]) -> Result<(), Refusal>
    ensures room { verdict_paper result ≡ room_for (length bytes.now) (length out.old) }
    ensures lent { out.new ≡ placed bytes.now out.old }
{
    if out.len() < bytes.len() {
        return Err(Refusal::NoRoom(bytes.len()));
    }
    out[..bytes.len()].copy_from_slice(bytes);
    Ok(())
}
