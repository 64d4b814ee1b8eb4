//! The tokens of a rule text. Text and place go in, since tokens and refusals tell places: a cursor over both would be no plainer.
ghost use Rattle.std.specs.Prelude.{◌≡◌, ◌<◌, ◌≤◌, false, length, MatchOption, slice_index};
ghost use Rattle.labels.specs.Spelling.{is_white, starts_name, byte_at, Named};
ghost use Rattle.rules.specs.Machine.{Next};

use crate::syntax::{Kind, Token};
use labels::spelling::{NoName, name_end, rest, white_end};

// The end of the name at the place, however long it is; none where no name begins.
fn name_stop(text: &[u8], place: usize) -> Option<usize>
    ensures { MatchOption result (starts_name (byte_at text.now place) ≡ false) (Named text.now place) }
{
    match name_end(text, place) {
        Ok(end) | Err(NoName::TooLong(end)) => Some(end),
        Err(NoName::Missing) => None,
    }
}

// The token at a place that is no white space; at the end of the text it is the end.
fn token_at(text: &[u8], place: usize) -> Token
    requires seen { place < length text.now → is_white (byte_at text.now place) ≡ false }
    ensures { Next text.now place result }
{
    let (kind, len) = match name_stop(text, place) {
        Some(end) => (Kind::Name, end - place),
        None => match rest(text, place) {
            [] => (Kind::End, 0),
            [b'/', b'/', ..] => (Kind::DoubleSlash, 2),
            [b'/', ..] => (Kind::Slash, 1),
            [b'.', ..] => (Kind::Dot, 1),
            [b'[', ..] => (Kind::Open, 1),
            [b']', ..] => (Kind::Close, 1),
            [b'*', ..] => (Kind::Star, 1),
            _ => (Kind::Stray, 1),
        },
    };
    Token { kind, place, len }
}

/// The first token from `at` on; past the text it is the end.
#[tactic(auto, using(crate::proofs::Lexes::white_behind))]
pub fn next_token(text: &[u8], at: usize) -> Token
    ensures { Next text.now at result }
{
    token_at(text, white_end(text, at))
}
