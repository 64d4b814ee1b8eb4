//! Printing what is reported of an input.
ghost use Rattle.std.specs.Prelude.{◌≡◌, length, IfOk, OnOk, IfSome};
ghost use Rattle.std.specs.String.{string_bytes};
ghost use Rattle.reports.specs.Refusals.{numbers_limit};
ghost use Rattle.birdelectrum.specs.Printed.{printed, Prints, Answers};

use reports::input::read_input;
use reports::report::{NUMBERS_LIMIT, Report, report_on};
use std::alloc::{AllocError, Global};
use std::io;
use std::io::{Read, Write};

/// The numbers, each on a line of its own, and the report on the last line.
// Lines are formatted and pushed, since the error of a push is that of memory, and that of `write!` is not.
#[tactic(auto, using(crate::proofs::TextLaws::text_laws))]
pub fn text(numbers: &[u32], report: Report, heap: Global) -> Result<String, AllocError>
    ensures { IfOk result (λ text. string_bytes text ≡ printed numbers.now report) }
{
    let mut text = String::new(heap);
    for number in numbers {
        text.push_str(format!(in heap; "{number}\n")?.as_str())?;
    }
    text.push_str(format!(in heap; "{report}\n")?.as_str())?;
    Ok(text)
}

// A list with room for the numbers of any input.
fn list(heap: Global) -> Result<Vec<u32>, AllocError>
    ensures { IfOk result (λ numbers. length numbers.items ≡ numbers_limit) }
{
    vec![in heap; 0u32; NUMBERS_LIMIT]
}

/// What is printed of an input.
#[tactic(auto, using(crate::proofs::RunLaws::prints))]
pub fn answer(input: &[u8], heap: Global) -> Result<String, AllocError>
    ensures { IfOk result (λ text. Prints input.now (string_bytes text)) }
{
    let mut numbers = list(heap)?;
    let report = report_on(input, &mut numbers);
    text(&numbers[..report.reported], report, heap)
}

// What is printed of the input that is read.
fn read_answer<R: Read + Drop>(reader: R, heap: Global) -> io::Result<String>
    ensures { IfOk result (λ text. IfSome (R.remaining reader) (λ input. Prints input (string_bytes text))) }
{
    let input = read_input(reader, heap)?;
    Ok(answer(&input, heap)?)
}

/// Reads an input, and writes what is printed of it.
#[tactic(auto, using(crate::proofs::RunLaws::answered))]
pub fn run<R: Read + Drop, W: Write>(reader: R, writer: &mut W, heap: Global) -> io::Result<()>
    ensures { OnOk result (IfSome (R.remaining reader) (λ input. Answers input (W.contents writer.old) (W.contents writer.new))) }
{
    let text = read_answer(reader, heap)?;
    writer.write_all(text.as_bytes())
}
