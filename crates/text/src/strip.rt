// A strip of bytes that is written from front to back. What would go behind its end is left out, so that whoever writes needs no test; that
// it is long enough is shown where it is made. An array, since nothing is on a heap; how much is written is handed on beside it.

ghost use Rattle.std.specs.Prelude.{◌≡◌, length, set};

// A strip of so many bytes.
pub(crate) fn blank<const N: usize>() -> [u8; N]
    ensures { length result ≡ N }
{
    [0; N]
}

// One byte at an offset.
pub(crate) fn put(strip: &mut [u8], at: usize, byte: u8)
    ensures { strip.new ≡ set strip.old at byte }
{
    if at < strip.len() {
        strip[at] = byte;
    }
}
