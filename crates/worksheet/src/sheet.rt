// A bounded run of bytes that is written front to back.
//
// A worksheet is written here first and lent once, when its whole length is known to fit: so a refusal leaves the lent buffer as it was.
// Four bytes at a time make a line. The array stands beside its length, since nothing is on a heap.

ghost use Rattle.std.specs.Prelude.{◌≡◌, ◌≤◌, length};
ghost use Rattle.worksheet.specs.private.Room.{enough_bytes};

// So many bytes hold the worksheet of any expression within the limits: fewer than two lines for each of `MOST_NODES` nodes.
pub const ENOUGH_BYTES: usize = 508;

// The bytes written so far are the first `len`.
#[derive(Clone, Copy)]
pub(crate) struct Sheet {
    bytes: [u8; ENOUGH_BYTES],
    len: usize,
    ghost long: { length bytes ≡ enough_bytes },
    ghost few: { len ≤ enough_bytes },
}

impl Sheet {
    ghost use Rattle.std.specs.Prelude.{[], ◌∷◌, ◌+◌};
    ghost use Rattle.worksheet.specs.private.Sheet.{Wrote, written};

    // With nothing written.
    pub(crate) fn new() -> Self
        ensures { result.len ≡ 0 }
    {
        Self {
            bytes: [0u8; ENOUGH_BYTES],
            len: 0,
        }
    }

    // The bytes written so far.
    pub(crate) fn written(&self) -> &[u8]
        ensures { result.now ≡ written self.now }
    {
        &self.bytes[..self.len]
    }

    // Four bytes more.
    pub(crate) fn line(&mut self, a: u8, b: u8, c: u8, d: u8)
        requires { self.old.len + 4 ≤ enough_bytes }
        ensures { Wrote self.old (a ∷ b ∷ c ∷ d ∷ []) self.new }
    {
        let end = self.len + 4;
        self.bytes[self.len..end].copy_from_slice(&[a, b, c, d]);
        self.len = end;
    }
}
