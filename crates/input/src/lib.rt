// Reading an input into lent room, for the programs: no memory is asked for, and what does not fit is not read.
#![tactic(auto)]

ghost use Rattle.std.specs.Prelude.{◌≤◌, length, IfOk};

use std::io;
use std::io::Read;

// Reads until `into` is full or the input ends, and answers how many bytes were put at the start of `into`.
pub fn read_full(input: &mut impl Read, into: &mut [u8]) -> io::Result<usize>
    ensures { IfOk result (λ n. n ≤ length into.new) }
{
    let mut done = 0;
    // Counted, so that it ends whatever the reader answers; `read_to_end` would ask for memory.
    for _ in 0..u64::MAX {
        let n = input.read(&mut into[done..])?;
        if n == 0 {
            break;
        }
        done += n;
    }
    Ok(done)
}
