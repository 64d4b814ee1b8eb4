//! Two listings, compared by what a rule selects from them.
ghost use Rattle.std.specs.Prelude.{◌≡◌, ℕ, ◌≤◌, List, length, IfOk, MatchResult};
ghost use Rattle.reports.specs.Refusals.{numbers_limit};
ghost use Rattle.reports.specs.Reports.{Bad, QuestionOf};
ghost use Rattle.compare.specs.Compared.{Agreement, Compared, ReportsPaths, Unrefused};

use crate::path::agree;
use crate::side::Side;
use labels::spelling::rest;
use reports::question::{Question, first_at};
use reports::refusal::Refusal;
use selection::both::select_both;
use std::alloc::{AllocError, Global};
use xml::reader::Xml;

/// Both sides, and whether the selections agree, where both finished.
#[derive(Drop)]
pub struct Comparison {
    pub first: Side,
    pub second: Side,
    pub agreement: Option<bool>,
}

// Whether the selections agree, where both finished.
#[tactic(auto, using(crate::proofs::ComparedLaws::agreement_laws))]
fn agreement(first: &Side, ones: &[u32], second: &Side, twos: &[u32]) -> Option<bool>
    ensures { Agreement first.now ones.now second.now twos.now result }
{
    match (first.report.verdict, second.report.verdict) {
        (Ok(()), Ok(())) => {
            let ones = &ones[..first.report.reported.min(ones.len())];
            let twos = &twos[..second.report.reported.min(twos.len())];
            Some(agree(&first.nodes, ones, &second.nodes, twos))
        }
        _ => None,
    }
}

// Selects from both listings that are behind the first line.
fn answer(
    question: &Question,
    ones: &mut [u32],
    twos: &mut [u32],
    heap: Global,
) -> Result<Comparison, AllocError>
    ensures { (bs : List ℕ) → QuestionOf bs question.now → IfOk result (λ c. Compared bs ones.old twos.old c ones.new twos.new) }
{
    let end = first_at(0, question.rest);
    let one = &question.rest[..end];
    let two = rest(question.rest, end + 1);
    let both = select_both(
        &question.rule,
        question.labels(),
        &mut Xml::new(one),
        &mut Xml::new(two),
        ones,
        twos,
    );
    let first = Side::new(one, both.first, heap)?;
    let second = Side::new(two, both.second, heap)?;
    let agreement = agreement(&first, ones, &second, twos);
    Ok(Comparison {
        first,
        second,
        agreement,
    })
}

/// Reads an input: a rule text in its first line, then a listing up to the first byte 0, and behind that byte another listing. Selects from
/// both: the numbers to report stand at the front of `ones` and of `twos`.
///
/// # Errors
///
/// Where memory runs out, the outer error; where the input is too long or its rule text is refused, the inner one, and both lists stay as
/// they were.
#[tactic(auto, using(crate::proofs::Reported::compared_laws))]
pub fn compare(
    input: &[u8],
    ones: &mut [u32],
    twos: &mut [u32],
    heap: Global,
) -> Result<Result<Comparison, Refusal>, AllocError>
    ensures compared { IfOk result (λ answer. MatchResult answer
        (λ c. Compared input.now ones.old twos.old c ones.new twos.new)
        (λ r. Bad input.now r × (ones.new ≡ ones.old) × (twos.new ≡ twos.old))) }
    // Each number to report is that of a node with a path.
    ensures paths { IfOk result (λ answer. IfOk answer (λ c. ReportsPaths c.first ones.new × ReportsPaths c.second twos.new)) }
    // With room for the numbers of any listing, no selection is refused.
    ensures room { numbers_limit ≤ length ones.old → numbers_limit ≤ length twos.old → IfOk result (λ answer. IfOk answer Unrefused) }
{
    match Question::read(input) {
        Ok(question) => Ok(Ok(answer(&question, ones, twos, heap)?)),
        Err(refusal) => Ok(Err(refusal)),
    }
}
