// The walk over a list's records.

use crate::records::{Records, load};
use crate::tally::Tally;
use std::io;
use std::io::Print;
use std::rt::Files;

// Compares the list in the file of this name, which is read into the lent space, and writes what came out. `agrees` tells whether our answer
// to a record's question is the stored one; a record of another form than its list's does not agree. Whoever calls a closure requires that
// it may be called.
pub fn replay<A: Fn(&[u8]) -> bool>(
    rt: &(impl Files + Print),
    name: &str,
    space: &mut [u8],
    agrees: A,
) -> io::Result<()>
    requires { A.IsAlwaysCallable agrees }
{
    replay_expanding(rt, name, space, agrees, |_| false)
}

// The same for a list of sets; `expands` tells whether a record holds one that is expanded, and its expansion compared.
pub fn replay_expanding<A: Fn(&[u8]) -> bool, E: Fn(&[u8]) -> bool>(
    rt: &(impl Files + Print),
    name: &str,
    space: &mut [u8],
    agrees: A,
    expands: E,
) -> io::Result<()>
    requires agrees { A.IsAlwaysCallable agrees }
    requires expands { E.IsAlwaysCallable expands }
{
    let n = load(rt, name, space);
    let tally = compared(&space[..n], agrees, expands);
    tally.print(rt, name)
}

// The tally of the whole file. An empty one, or one that ends within a record, counts as a difference.
fn compared<A: Fn(&[u8]) -> bool, E: Fn(&[u8]) -> bool>(file: &[u8], agrees: A, expands: E) -> Tally
    requires agrees { A.IsAlwaysCallable agrees }
    requires expands { E.IsAlwaysCallable expands }
{
    let mut tally = Tally::default();
    if file.is_empty() {
        tally.count_broken();
    }
    for record in Records(file) {
        match record {
            None => tally.count_broken(),
            Some(record) => {
                tally.count(agrees(record));
                if expands(record) {
                    tally.count_expansion();
                }
            }
        }
    }
    tally
}
