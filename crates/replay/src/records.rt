// A file of stored answers, and its records: each is two bytes of length, the low one first, and that many bytes.

ghost use Rattle.std.specs.Prelude.{◌≡◌, ◌≤◌, ◌<◌, length, take};
ghost use Rattle.std.specs.Option.{IfSome};
ghost use Rattle.std.specs.Iterator.{at_most};

use input::read_full;
use std::fs::File;
use std::rt::Files;

// The records of a file, from the first on. Where the file ends within one, that one is the last, and is none.
#[derive(Clone, Copy)]
pub struct Records<'a>(pub &'a [u8]);

impl<'a> Iterator for Records<'a> {
    type Item = Option<&'a [u8]>;

    ghost remaining = { λ records. at_most (length records.0.now) };

    fn next(&mut self) -> Option<Option<&'a [u8]>> {
        let file = self.0;
        if file.is_empty() {
            return None;
        }
        match split_record(file) {
            None => {
                self.0 = &file[..0];
                Some(None)
            }
            Some((record, behind)) => {
                self.0 = behind;
                Some(Some(record))
            }
        }
    }
}

// Room for one file.
pub fn room() -> [u8; 262144]
    ensures { 262144 ≡ length result }
{
    [0; 262144]
}

// Puts the file at the start of `into` and answers its length: 0 where it is missing, cannot be read, or leaves no byte of `into`
// over.
pub fn load(files: &impl Files, path: &str, into: &mut [u8]) -> usize
    ensures { (result ≤ length into.new) × (result ≡ length (take result into.new)) }
{
    let n = match File::open(files, path) {
        Ok(mut file) => read_full(&mut file, into).unwrap_or(0),
        Err(_) => 0,
    };
    if n == into.len() {
        return 0;
    }
    n
}

// The bytes of the first record, and what stands behind it; none where it is cut short.
pub fn split_record(file: &[u8]) -> Option<(&[u8], &[u8])>
    ensures { IfSome result (λ it. length it.1.now < length file.now) }
{
    let [low, high, behind @ ..] = file else {
        return None;
    };
    let n = usize::from(u16::from_le_bytes([*low, *high]));
    if behind.len() < n {
        return None;
    }
    Some(behind.split_at(n))
}

// The two bytes at `i` as a number, the low one first; 0 where they are not both there.
pub fn word(s: &[u8], i: usize) -> usize
    ensures { result ≤ 65535 }
{
    if s.len() < 2 || s.len() - 2 < i {
        return 0;
    }
    usize::from(u16::from_le_bytes([s[i], s[i + 1]]))
}
