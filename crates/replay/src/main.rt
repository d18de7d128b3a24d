// Asks the libraries every question whose answer by the crate is stored, and counts the answers that differ.
//
// Each list of answers is a file of data/ and a file of src/ under the same name, which holds one public function, `agrees`: whether our
// answer to a record's question is the stored one. The lists of expressions, `worksheets`, `measured_worksheets`, `room` and `limits`,
// share `typings`, `givers` shares `consensus`, and `measured_calls` and `measured_refused` share the files of `calls` and `refused`.
// `boundary` and `limits` hold the documents' answers in place of the crate's, and `givers` document 02's. The
// crate knows no texts: those of `texts` are by a reader and a writer of the comparison's own. docs/STORED.md says what the records hold.

#![tactic(auto)]

mod agreement;
mod allowed;
mod answers;
mod boundary;
mod call_records;
mod combine;
mod consensus;
mod convertible;
mod hand_made;
mod handsets;
mod named_sets;
mod parts;
mod records;
mod refused;
mod rule_records;
mod set_answers;
mod steps;
mod tally;
mod texts;
mod typings;
mod walk;

use records::room;
use std::io;
use std::io::Print;
use std::rt::Files;
use walk::{replay, replay_expanding};

fn main(rt: HostRuntime) -> io::Result<()> {
    // Made once and lent on: each comparison has a walk of its own, and each walk would have a room of its own on the stack.
    let mut space = room();
    scalars(&rt, &mut space)?;
    sets(&rt, &mut space)?;
    calls(&rt, &mut space)?;
    expressions(&rt, &mut space)
}

// Scalars: their combinations, conversions, named sets and consensus.
fn scalars(rt: &(impl Files + Print), space: &mut [u8]) -> io::Result<()> {
    replay(rt, "combine", space, combine::agrees)?;
    replay(rt, "convertible", space, convertible::agrees)?;
    replay(rt, "named_sets", space, named_sets::agrees)?;
    replay(rt, "consensus", space, consensus::agrees)?;
    replay(rt, "givers", space, consensus::agrees)
}

// Sets made by hand.
fn sets(rt: &(impl Files + Print), space: &mut [u8]) -> io::Result<()> {
    replay_expanding(rt, "handsets", space, handsets::agrees, agreement::expands)?;
    replay(rt, "boundary", space, boundary::agrees)
}

// Calls of the functions.
fn calls(rt: &(impl Files + Print), space: &mut [u8]) -> io::Result<()> {
    replay(rt, "calls", space, call_records::agrees)?;
    replay(rt, "measured_calls", space, call_records::agrees)?;
    replay(rt, "refused", space, refused::agrees)?;
    replay(rt, "measured_refused", space, refused::agrees)?;
    replay(rt, "allowed", space, allowed::agrees)
}

// Expressions, and their texts.
fn expressions(rt: &(impl Files + Print), space: &mut [u8]) -> io::Result<()> {
    replay(rt, "worksheets", space, typings::agrees)?;
    replay(rt, "measured_worksheets", space, typings::agrees)?;
    replay(rt, "room", space, typings::agrees)?;
    replay(rt, "limits", space, typings::agrees)?;
    replay(rt, "texts", space, texts::agrees)
}
