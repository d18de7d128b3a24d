// Expressions typed into worksheets, and worksheets run on the strict machine. What they answer is put into its struct here, and by no
// `From`: `c_answers`, whose structs these are, rests on neither crate of the answers.

ghost use Rattle.std.specs.Prelude.{◌≡◌};
ghost use Rattle.functions.specs.Functions.{listing_of};
ghost use Rattle.machine.specs.Machine.{run_bytes};
ghost use Rattle.machine.specs.Run.{ran_of};
ghost use Rattle.worksheet.specs.Answer.{buffer_after};
ghost use Rattle.worksheet.specs.Typing.{typing, answer_of};
ghost use Rattle.c_answers.specs.Answers.{type_for_c, run_for_c};
ghost use Rattle.azwukran.specs.Questions.{on};

use c_answers::{NO_VALUE, RunForC, STOPPED, TypeForC};
use machine::{Ended, Stopped, run_worksheet};
use scalars::UNUSED;
use worksheet::type_expression;

// The type and the mark of an expression and its worksheet's length, with the worksheet in front of the lent bytes.
#[tactic(auto, unfolding(c_answers::specs::Answers::type_for_c))]
pub fn azwukran_type(bytes: &[u8], switch: u8, out: &mut [u8]) -> TypeForC
    ensures answer { result ≡ type_for_c (answer_of (typing (on switch) bytes.now out.old)) }
    ensures buffer { out.new ≡ buffer_after (typing (on switch) bytes.now out.old) out.old }
{
    match type_expression(bytes, switch != 0, out) {
        Err(why) => TypeForC {
            number: why.number(),
            code: UNUSED,
            mark: UNUSED,
            length: NO_VALUE,
            place: why.place(),
        },
        Ok(typed) => TypeForC {
            number: 0,
            code: typed.result.code,
            mark: typed.result.mark(),
            length: typed.len,
            place: 0,
        },
    }
}

// The end of a worksheet's run on the strict machine, or the line of its stop.
#[tactic(auto, unfolding(c_answers::specs::Answers::run_for_c))]
pub fn azwukran_run(sheet: &[u8]) -> RunForC
    ensures { result ≡ run_for_c (ran_of (run_bytes listing_of sheet.now)) }
{
    match run_worksheet(sheet) {
        Err(Stopped(line)) => RunForC {
            number: STOPPED,
            top: UNUSED,
            mark: UNUSED,
            operands: NO_VALUE,
            place: line,
        },
        Ok(Ended { operands, top }) => RunForC {
            number: 0,
            top: top.map_or(UNUSED, |operand| operand.code),
            mark: top.map_or(UNUSED, |operand| operand.mark()),
            operands,
            place: 0,
        },
    }
}
