//! What is reported of an input.
ghost use Rattle.std.specs.Prelude.{◌≡◌, ℕ, ◌≤◌, List, length, take, Ok, Some};
ghost use Rattle.selection.specs.Answers.{answered};
ghost use Rattle.reports.specs.Refusals.{numbers_limit};
ghost use Rattle.reports.specs.Elements.{WithRoom, SelectsElements};
ghost use Rattle.reports.specs.Printed.{report_text};
ghost use Rattle.reports.specs.Reports.{QuestionOf, Concludes, Reports, OnlyReports};

use crate::question::Question;
use crate::refusal::Refusal;
use selection::refusal::SelectFault;
use selection::select::select;
use std::fmt;
use xml::fault::XmlFault;
use xml::reader::Xml;

/// The numbers that an input has to report, at most.
pub const NUMBERS_LIMIT: usize = 16_384;

/// How many numbers are reported, and whether the input is refused. A count, and not the filled part of the caller's list: the list stays
/// lent no longer than the call.
#[derive(Clone, Copy, PartialEq, Eq, Debug)]
pub struct Report {
    pub reported: usize,
    pub verdict: Result<(), Refusal>,
}

impl Report {
    /// How a selection from a listing of so many bytes is reported.
    #[tactic(auto, using(crate::proofs::ReportLaws::concludes))]
    pub fn of_selection(answer: Result<usize, SelectFault<XmlFault>>, length: usize) -> Report
        ensures { Concludes length (answered answer) result }
    {
        match answer {
            Ok(reported) => Report {
                reported,
                verdict: Ok(()),
            },
            Err(fault) => Report {
                reported: fault.reported,
                verdict: Err(Refusal::of_selection(fault.cause, length)),
            },
        }
    }
}

/// The count of the numbers, or why the input is refused, as `selected 3` or `refused 33 at 8`.
impl fmt::Display for Report {
    ghost output = { λ report. Some (report_text report) };

    fn fmt<W: fmt::Write>(&self, f: &mut fmt::Formatter<W>) -> fmt::Result {
        let reported = self.reported;
        match self.verdict {
            Ok(()) => write!(f, "selected {reported}"),
            Err(refusal) => write!(f, "refused {refusal}"),
        }
    }
}

// Selects from the listing that is behind the first line.
fn answer(question: &Question, numbers: &mut [u32]) -> Report
    ensures { (bs : List ℕ) → QuestionOf bs question.now → Reports bs numbers.old result numbers.new }
{
    let listing = question.rest;
    let mut source = Xml::new(listing);
    let answer = select(&question.rule, question.labels(), &mut source, numbers);
    Report::of_selection(answer, listing.len())
}

/// Reads an input, and selects. The numbers to report stand at the front of the list.
#[tactic(auto, using(crate::proofs::OneReport::bad_laws))]
pub fn report_on(input: &[u8], numbers: &mut [u32]) -> Report
    ensures reports { OnlyReports input.now numbers.old result numbers.new }
    ensures fits { result.reported ≤ length numbers.old }
    ensures room { numbers_limit ≤ length numbers.old → WithRoom input.now result }
    ensures elements { result.verdict ≡ Ok tt → SelectsElements input.now (take result.reported numbers.new) }
{
    match Question::read(input) {
        Ok(question) => answer(&question, numbers),
        Err(refusal) => Report {
            reported: 0,
            verdict: Err(refusal),
        },
    }
}
