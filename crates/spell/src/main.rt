// Writes the text of the expression on standard input, whose bytes nobody reads at the bench, and a newline. A refusal prints its number and
// place instead. What is answered depends on at most the first 193 bytes of the input, and the program reads no more than 4,096.
#![tactic(auto)]

use input::read_full;
use std::io;
use std::io::Print;
use text::write_text;

// The most bytes that are read, and room for any text.
const MOST_BYTES: usize = 4096;

fn main(rt: HostRuntime) -> io::Result<()> {
    let mut space = [0; MOST_BYTES];
    let n = read_full(&mut rt.stdin(), &mut space)?;
    let mut text = [0; MOST_BYTES];
    answer(&rt, &space[..n], &mut text)
}

// Writes the expression into the text and prints what came out.
fn answer(out: &impl Print, input: &[u8], text: &mut [u8]) -> io::Result<()> {
    match write_text(input, text) {
        Ok(len) => {
            out.write_all(&text[..len])?;
            out.write_all(b"\n")
        }
        Err(why) => println!(out; "{why}"),
    }
}
