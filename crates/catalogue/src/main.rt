// Prints every rule of every function: function, index, number of arguments, the arguments, the result. The file `stdout` is the
// crate's own listing, so a run compares the two to the byte.
#![tactic(auto)]

use functions::{FUNCTION_COUNT, rule_at};
use rules::Rule;
use std::io;
use std::io::Print;

// The last number that an index can be.
const LAST_INDEX: u8 = 255;

fn main(rt: HostRuntime) -> io::Result<()> {
    for function in 0..FUNCTION_COUNT {
        print_listing(&rt, function)?;
    }
    Ok(())
}

// The rules of one function, up to the index that is refused.
fn print_listing(out: &impl Print, function: u8) -> io::Result<()> {
    for index in 0..LAST_INDEX {
        let Ok(rule) = rule_at(function, index) else {
            break;
        };
        print_rule(out, function, index, rule)?;
    }
    Ok(())
}

// A line for one rule, whose arguments are fields with an index.
fn print_rule(out: &impl Print, function: u8, index: u8, rule: Rule) -> io::Result<()> {
    print!(out; "{function} {index} {} ", rule.count)?;
    for i in 0..usize::from(rule.count) {
        print!(out; "{} ", rule.argument(i))?;
    }
    println!(out; "{}", rule.result)
}
