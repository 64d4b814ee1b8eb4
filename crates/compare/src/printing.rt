//! What is printed of an input.
ghost use Rattle.std.specs.Prelude.{◌≡◌, ◌++◌, codes, length, take, IfOk, OnOk, Some};
ghost use Rattle.reports.specs.Refusals.{numbers_limit};
ghost use Rattle.reports.specs.Printed.{report_text};
ghost use Rattle.compare.specs.Paths.{entries, HasPath, HavePaths};
ghost use Rattle.compare.specs.Compared.{ReportsPaths};
ghost use Rattle.compare.specs.Printed.{ComparisonText, refused_line, Prints, Answers};
ghost use Rattle.compare.specs.Adding.{LineAdded, LinesAdded, SideAdded};

use crate::comparison::{Comparison, compare};
use crate::node::Node;
use crate::path::push_path;
use crate::side::Side;
use reports::input::read_input;
use reports::refusal::Refusal;
use reports::report::{NUMBERS_LIMIT, Report};
use std::alloc::{AllocError, Global};
use std::io;
use std::io::{Read, Write};

// Appends the path of a node, and a line feed behind it.
#[tactic(auto, using(crate::proofs::PrintLaws::line_added))]
fn push_line(text: &mut Vec<u8>, nodes: &[Node], v: usize) -> Result<(), AllocError>
    requires { HasPath (entries nodes.now) v }
    ensures { IfOk result (λ _. LineAdded (entries nodes.now) v text.old.items text.new.items) }
{
    push_path(text, nodes, v)?;
    text.push(b'\n')?;
    Ok(())
}

// Appends the path of each of these nodes, and a line feed behind it.
#[tactic(auto, using(crate::proofs::PrintLaws::lines_laws))]
fn push_paths(text: &mut Vec<u8>, nodes: &[Node], numbers: &[u32]) -> Result<(), AllocError>
    requires { HavePaths (entries nodes.now) numbers.now }
    ensures { IfOk result (λ _. LinesAdded (entries nodes.now) numbers.now text.old.items text.new.items) }
{
    for number in numbers {
        push_line(text, nodes, *number as usize)?;
    }
    Ok(())
}

// The numbers that are reported, at the front of a list.
#[tactic(auto, using(std::proofs::lemmas::List::take_min))]
fn reported(report: Report, numbers: &[u32]) -> &[u32]
    ensures { result.now ≡ take report.reported numbers.now }
{
    &numbers[..report.reported.min(numbers.len())]
}

// Appends a report on a line. The line is formatted first: the error of a push is that of memory, and that of `write!` is not.
fn push_report(text: &mut Vec<u8>, report: Report, heap: Global) -> Result<(), AllocError>
    ensures { IfOk result (λ _. text.new.items ≡ text.old.items ++ (report_text report ++ codes "\n")) }
{
    let line = format!(in heap; "{report}\n")?;
    text.extend_from_slice(line.as_bytes())?;
    Ok(())
}

// Appends one side.
#[tactic(auto, using(crate::proofs::PrintLaws::side_added))]
fn push_side(
    text: &mut Vec<u8>,
    side: &Side,
    numbers: &[u32],
    heap: Global,
) -> Result<(), AllocError>
    requires { ReportsPaths side.now numbers.now }
    ensures { IfOk result (λ _. SideAdded side.now numbers.now text.old.items text.new.items) }
{
    push_paths(text, &side.nodes, reported(side.report, numbers))?;
    push_report(text, side.report, heap)
}

// What is printed of a comparison.
#[tactic(auto, using(crate::proofs::PrintLaws::both_texts))]
fn comparison_text(
    comparison: &Comparison,
    ones: &[u32],
    twos: &[u32],
    heap: Global,
) -> Result<Vec<u8>, AllocError>
    requires first { ReportsPaths comparison.now.first ones.now }
    requires second { ReportsPaths comparison.now.second twos.now }
    ensures { IfOk result (λ text. ComparisonText comparison.now ones.now twos.now text.items) }
{
    let mut text = Vec::new(heap);
    push_side(&mut text, &comparison.first, ones, heap)?;
    push_side(&mut text, &comparison.second, twos, heap)?;
    let verdict = match comparison.agreement {
        Some(true) => "alike\n",
        Some(false) => "not alike\n",
        None => "not compared\n",
    };
    text.extend_from_slice(verdict.as_bytes())?;
    Ok(text)
}

// What is printed of a refused input.
fn refused_text(refusal: Refusal, heap: Global) -> Result<Vec<u8>, AllocError>
    ensures { IfOk result (λ text. text.items ≡ refused_line refusal) }
{
    let line = format!(in heap; "refused {refusal}\n")?;
    Ok(line.into_bytes())
}

// A list with room for the numbers of any listing.
fn list(heap: Global) -> Result<Vec<u32>, AllocError>
    ensures { IfOk result (λ numbers. length numbers.items ≡ numbers_limit) }
{
    vec![in heap; 0u32; NUMBERS_LIMIT]
}

// What is printed of an input, with lists for the numbers.
#[tactic(auto, using(crate::proofs::RunLaws::print_laws))]
fn text(
    input: &[u8],
    ones: &mut [u32],
    twos: &mut [u32],
    heap: Global,
) -> Result<Vec<u8>, AllocError>
    requires first { length ones.old ≡ numbers_limit }
    requires second { length twos.old ≡ numbers_limit }
    ensures { IfOk result (λ text. Prints input.now text.items) }
{
    match compare(input, ones, twos, heap)? {
        Ok(comparison) => comparison_text(&comparison, ones, twos, heap),
        Err(refusal) => refused_text(refusal, heap),
    }
}

/// What is printed of an input.
pub fn answer(input: &[u8], heap: Global) -> Result<Vec<u8>, AllocError>
    ensures { IfOk result (λ text. Prints input.now text.items) }
{
    let mut ones = list(heap)?;
    let mut twos = list(heap)?;
    text(input, &mut ones, &mut twos, heap)
}

// Writes what is printed of an input.
#[tactic(auto, using(crate::proofs::RunLaws::written))]
fn write_answer<W: Write>(input: &[u8], writer: &mut W, heap: Global) -> io::Result<()>
    ensures { OnOk result (Answers (Some input.now) (W.contents writer.old) (W.contents writer.new)) }
{
    let text = answer(input, heap)?;
    writer.write_all(&text)
}

/// Reads an input, and writes what is printed of it.
#[tactic(auto, using(crate::proofs::RunLaws::answered))]
pub fn run<R: Read + Drop, W: Write>(reader: R, writer: &mut W, heap: Global) -> io::Result<()>
    ensures { OnOk result (Answers (R.remaining reader) (W.contents writer.old) (W.contents writer.new)) }
{
    let input = read_input(reader, heap)?;
    write_answer(&input, writer, heap)
}
