// Types the expression on standard input: prints number, place and type, and then the worksheet, a line for each four bytes. A refusal
// prints its first line only, with type 255. The concrete-only switch is off, and the buffer always suffices.
//
// The expression comes in bytes, or as text, and its first byte tells which: 0, 1 or 2 begin bytes, and so does an empty input; anything
// else is text. Places are offsets in the text while it is read, and offsets in the bytes that it spells afterwards. What is answered
// depends on at most the first 4,097 bytes of the input, so the program keeps the first 65,536 and reads the rest to its end without
// keeping it.
#![tactic(auto)]

ghost use Rattle.std.specs.Prelude.{◌≤◌, length, IfOk};
ghost use Rattle.worksheet.specs.private.Room.{enough_bytes};

use expressions::MEASURED_LEAF;
use input::read_full;
use scalars::{Refusal, UNUSED};
use std::io;
use std::io::Print;
use text::read_text;
use worksheet::{ENOUGH_BYTES, Typed, type_expression};

// The most bytes of the input that are kept.
const MOST_KEPT: usize = 65536;

// Room for the bytes of any text.
const MOST_BYTES: usize = 4096;

// The bytes of a line.
const LINE: usize = 4;

fn main(rt: HostRuntime) -> io::Result<()> {
    let mut space = [0; MOST_KEPT];
    let n = read_full(&mut rt.stdin(), &mut space)?;
    io::copy(&mut rt.stdin(), &mut io::sink())?;
    let mut sheet = [0; ENOUGH_BYTES];
    answer(&rt, &space[..n], &mut sheet)
}

// Types the input and prints what came out. The sheet has room for any worksheet.
fn answer(out: &impl Print, input: &[u8], sheet: &mut [u8]) -> io::Result<()>
    requires { enough_bytes ≤ length sheet.old }
{
    match typed(input, sheet) {
        Ok(typed) => {
            println!(out; "0 0 {}", typed.result.code)?;
            print_sheet(out, &sheet[..typed.len])
        }
        Err(why) => println!(out; "{why} {UNUSED}"),
    }
}

// Types the input, in either form, into the sheet.
fn typed(input: &[u8], sheet: &mut [u8]) -> Result<Typed, Refusal>
    ensures { IfOk result (λ t. t.len ≤ length sheet.new) }
{
    if !is_text(input) {
        return type_expression(input, false, sheet);
    }
    let mut bytes = [0; MOST_BYTES];
    let len = read_text(input, &mut bytes)?;
    type_expression(&bytes[..len], false, sheet)
}

// Whether an input is a text: no tag of an expression's first byte begins it.
fn is_text(input: &[u8]) -> bool {
    input.first().is_some_and(|first| MEASURED_LEAF < *first)
}

// The lines of a worksheet.
fn print_sheet(out: &impl Print, sheet: &[u8]) -> io::Result<()> {
    for line in sheet.chunks(LINE) {
        if let [a, b, c, d] = line {
            println!(out; "{a} {b} {c} {d}")?;
        }
    }
    Ok(())
}
