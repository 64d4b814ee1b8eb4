//! Where names and tags end. A scan starts at any place, also past the end of the input. It takes and answers bare places, since the
//! faults and the tags tell places: a cursor would be taken apart and made again at each step.
ghost use Rattle.std.specs.Prelude.{◌≡◌, ◌≤◌, length, MatchResult};
ghost use Rattle.labels.specs.Spelling.{byte_at, Longest, Spelled};
ghost use Rattle.xml.specs.Bytes.{plain};
ghost use Rattle.xml.specs.Markup.{TagEnds, EndEnds, NameFault, TagFault, EndFault};
ghost use Rattle.xml.specs.Inner.{Told, ClosesAt, CloseMissing, StartFault, Tagged};

use crate::fault::ScanFault;
use labels::spelling;
use labels::spelling::{NoName, is_white, rest, run_end, white_end};

/// The end of the name at the place.
pub fn name_end(input: &[u8], at: usize) -> Result<usize, ScanFault>
    ensures { MatchResult result (Spelled input.now at) (Told (NameFault input.now at)) }
{
    match spelling::name_end(input, at) {
        Ok(end) => Ok(end),
        Err(NoName::TooLong(_)) => Err(ScanFault::LongName(at)),
        Err(NoName::Missing) if at < input.len() => Err(ScanFault::Byte(at)),
        Err(NoName::Missing) => Err(ScanFault::End(input.len())),
    }
}

// Whether the byte is neither `<` nor `>`.
fn is_plain(b: u8) -> bool
    ensures { result ≡ plain b }
{
    !(b == b'<' || b == b'>')
}

// The first place of `<` or `>`, or the length.
fn bracket_place(input: &[u8], from: usize) -> usize
    ensures { from ≤ length input.now → Longest (λ i. plain (byte_at input.now i)) (length input.now) from result }
{
    run_end(input, from, is_plain)
}

// Answers the place itself, at which a `>` must stand.
fn close_at(input: &[u8], at: usize) -> Result<usize, ScanFault>
    ensures { MatchResult result (ClosesAt input.now at) (CloseMissing input.now at) }
{
    match rest(input, at) {
        [] => Err(ScanFault::End(input.len())),
        [b'>', ..] => Ok(at),
        [..] => Err(ScanFault::Byte(at)),
    }
}

// The place of the `>` that ends a start tag, whose name ends at `at`.
fn tag_close(input: &[u8], at: usize) -> Result<usize, ScanFault>
    ensures { MatchResult result (TagEnds input.now at) (Told (TagFault input.now at)) }
{
    match rest(input, at) {
        [] => Err(ScanFault::End(input.len())),
        [b'/', ..] => close_at(input, at + 1),
        [b, ..] => {
            if is_white(*b) || *b == b'>' {
                close_at(input, bracket_place(input, at))
            } else {
                Err(ScanFault::Byte(at))
            }
        }
    }
}

/// A start tag: its name, the place behind the tag, and whether the element is empty.
#[derive(Clone, Copy)]
pub struct Opening<'a> {
    pub name: &'a [u8],
    pub end: usize,
    pub empty: bool,
}

/// The start tag whose name begins at the place.
pub fn start_tag(input: &[u8], at: usize) -> Result<Opening<'_>, ScanFault>
    ensures { MatchResult result (Tagged input.now at) (Told (StartFault input.now at)) }
{
    let end = name_end(input, at)?;
    let close = tag_close(input, end)?;
    Ok(Opening {
        name: &input[at..end],
        end: close + 1,
        empty: input[close - 1] == b'/',
    })
}

/// The place of the `>` that ends an end tag, whose name ends at `at`.
#[tactic(auto, using(crate::proofs::Ends::white_closes))]
pub fn end_tag_close(input: &[u8], at: usize) -> Result<usize, ScanFault>
    ensures { at ≤ length input.now → MatchResult result (EndEnds input.now at) (Told (EndFault input.now at)) }
{
    close_at(input, white_end(input, at))
}
