// Expressions typed into worksheets, and worksheets run on the strict machine, for C. Each function calls the library's of its name and
// promises what that one does.

ghost use Rattle.std.specs.Prelude.{◌≡◌};
ghost use Rattle.functions.specs.Functions.{listing_of};
ghost use Rattle.machine.specs.Machine.{run_bytes};
ghost use Rattle.machine.specs.Run.{ran_of};
ghost use Rattle.worksheet.specs.Answer.{buffer_after};
ghost use Rattle.worksheet.specs.Typing.{typing, answer_of};
ghost use Rattle.c_answers.specs.Answers.{type_for_c, run_for_c};
ghost use Rattle.azwukran.specs.Questions.{on};

use c_answers::{RunForC, TypeForC};

// The type and the mark of an expression and its worksheet's length, with the worksheet in front of the lent bytes.
#[unsafe(no_mangle)]
pub extern "C" fn azwukran_type(bytes: &[u8], switch: u8, out: &mut [u8]) -> TypeForC
    ensures answer { result ≡ type_for_c (answer_of (typing (on switch) bytes.now out.old)) }
    ensures buffer { out.new ≡ buffer_after (typing (on switch) bytes.now out.old) out.old }
{
    azwukran::azwukran_type(bytes, switch, out)
}

// The end of a worksheet's run on the strict machine, or the line of its stop.
#[unsafe(no_mangle)]
pub extern "C" fn azwukran_run(sheet: &[u8]) -> RunForC
    ensures { result ≡ run_for_c (ran_of (run_bytes listing_of sheet.now)) }
{
    azwukran::azwukran_run(sheet)
}
