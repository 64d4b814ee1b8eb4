//! What stands between tags. Scans take and answer bare places, for the reason at the head of scan.rt.
ghost use Rattle.std.specs.Prelude.{◌≡◌, ◌+◌, ◌<◌, ◌≤◌, length, drop, MatchResult, slice_index, not};
ghost use Rattle.labels.specs.Spelling.{Longest};
ghost use Rattle.xml.specs.Bytes.{apart, text};
ghost use Rattle.xml.specs.Markup.{markup, CommentEnds, IsComment, IsInstruction, CommentFault, InstructionFault};
ghost use Rattle.xml.specs.Inner.{Told, stop_markup, Steps, Refused, Passes, PassesText};
ghost use Rattle.xml.specs.declared.markup.Markup.TheVariants.{Comment, Instruction};

use crate::fault::{ScanFault, XmlFault};
use crate::markup::{Markup, Stop};
use labels::spelling::{is_white, run_end, starts_name, white_end};
use std::ops::ControlFlow;

// Which markup begins at the place.
fn which(input: &[u8], at: usize) -> Markup
    ensures { result ≡ markup (drop at input.now) }
{
    match input.get(at) {
        None => Markup::Nothing,
        Some(b'<') => match &input[at + 1..] {
            [] => Markup::Cut,
            [b'/', ..] => Markup::EndTag,
            [b'!', b'-', b'-', ..] => Markup::Comment,
            [b'!', ..] => Markup::Declaration,
            [b'?', ..] => Markup::Instruction,
            [b, ..] if starts_name(*b) => Markup::StartTag,
            [..] => Markup::Stray,
        },
        Some(_) => Markup::Text,
    }
}

// The first place of the two bytes, or the length.
fn pair_place(input: &[u8], from: usize, pair: &[u8; 2]) -> usize
    requires { 0 < slice_index pair.now 1 }
    ensures first { from ≤ length input.now → Longest (apart input.now (slice_index pair.now 0) (slice_index pair.now 1)) (length input.now) from result }
    ensures within { result ≤ length input.now }
{
    if from >= input.len() {
        return input.len();
    }
    input[from..]
        .array_windows::<2>()
        .position(|[a, b]| *a == pair[0] && *b == pair[1])
        .map_or(input.len(), |i| from + i)
}

// The end of a comment whose text begins at the place.
fn dashes_end(input: &[u8], from: usize) -> Result<usize, ScanFault>
    ensures { from ≤ length input.now → MatchResult result (CommentEnds input.now from) (Told (CommentFault input.now from)) }
{
    let dashes = pair_place(input, from, b"--");
    match &input[dashes..] {
        [_, _, b'>', ..] => Ok(dashes + 3),
        [_, _, _, ..] => Err(ScanFault::Byte(dashes + 2)),
        _ => Err(ScanFault::End(input.len())),
    }
}

// The end of the comment that begins at the place.
#[tactic(auto, using(crate::specs::Shapes::comment_long))]
fn comment_end(input: &[u8], at: usize) -> Result<usize, ScanFault>
    requires { markup (drop at input.now) ≡ Comment }
    ensures { MatchResult result (IsComment input.now at) (Told (CommentFault input.now (at + 4))) }
{
    dashes_end(input, at + 4)
}

// The end of the instruction that begins at the place.
fn instruction_end(input: &[u8], at: usize) -> Result<usize, ScanFault>
    requires { markup (drop at input.now) ≡ Instruction }
    ensures { MatchResult result (IsInstruction input.now at) (Told (InstructionFault input.now (at + 2))) }
{
    let close = pair_place(input, at + 2, b"?>");
    if close >= input.len() {
        return Err(ScanFault::End(input.len()));
    }
    Ok(close + 2)
}

// What stands at the place: something to go on behind, or a stop.
fn skip_one(input: &[u8], at: usize, inside: bool) -> Result<ControlFlow<Stop, usize>, XmlFault>
    ensures { MatchResult result (Steps input.now inside at) (Refused input.now inside at) }
{
    match which(input, at) {
        Markup::Text => {
            if inside || is_white(input[at]) {
                Ok(ControlFlow::Continue(at + 1))
            } else {
                Err(ScanFault::Byte(at).into())
            }
        }
        Markup::Comment => Ok(ControlFlow::Continue(comment_end(input, at)?)),
        Markup::Instruction => Ok(ControlFlow::Continue(instruction_end(input, at)?)),
        Markup::Declaration => Err(XmlFault::NotComment(at)),
        Markup::Cut => Err(ScanFault::End(input.len()).into()),
        Markup::Stray => Err(ScanFault::Byte(at + 1).into()),
        Markup::StartTag => Ok(ControlFlow::Break(Stop::StartTag)),
        Markup::EndTag => Ok(ControlFlow::Break(Stop::EndTag)),
        Markup::Nothing => Ok(ControlFlow::Break(Stop::End)),
    }
}

// Whether the byte begins no markup.
fn is_text(b: u8) -> bool
    ensures { result ≡ text b }
{
    b != b'<'
}

// How far text goes by from the place on: inside, up to the next `<`; outside it is white space alone.
fn text_end(input: &[u8], from: usize, inside: bool) -> usize
    ensures { from ≤ length input.now → PassesText input.now inside from result }
{
    if inside {
        run_end(input, from, is_text)
    } else {
        white_end(input, from)
    }
}

/// Reads on to the next tag or the end, and tells which.
pub fn skip(input: &[u8], place: &mut usize, inside: bool) -> Result<Stop, XmlFault>
    ensures within { place.old ≤ length input.now → place.new ≤ length input.now }
    ensures passes { Passes input.now inside place.old place.new }
    ensures found { MatchResult result (λ s. stop_markup s ≡ markup (drop place.new input.now)) (Refused input.now inside place.new) }
{
    loop {
        match skip_one(input, *place, inside)? {
            // Text may be long, so that it goes by in a loop of its own.
            ControlFlow::Continue(next) if is_text(input[*place]) => *place = text_end(
                input, next, inside,
            ),
            ControlFlow::Continue(next) => *place = next,
            ControlFlow::Break(stop) => return Ok(stop),
        }
    }
}
