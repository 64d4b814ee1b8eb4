//! What a source still has to tell.
ghost use Rattle.std.specs.Prelude.{◌≡◌, ◌<◌, ◌≤◌, min, length, drop, None};

use crate::source::Source;

/// How many events come, and the fault behind them where fewer come than `most`. No more events are heard than asked for.
#[tactic(auto, using(crate::proofs::Heard::heard_out))]
pub fn drained<S: Source>(source: &mut S, most: usize) -> (usize, Option<S::Fault>)
    ensures count { result.0 ≡ min most (length (S.events source.old)) }
    ensures told { length (S.events source.old) < most → result.1 ≡ S.ending source.old }
    ensures untold { most ≤ length (S.events source.old) → result.1 ≡ None }
    ensures others { S.events source.new ≡ drop result.0 (S.events source.old) }
    ensures ending { S.ending source.new ≡ S.ending source.old }
{
    for count in 0..most {
        match source.next() {
            Ok(Some(_)) => {}
            Ok(None) => return (count, None),
            Err(fault) => return (count, Some(fault)),
        }
    }
    (most, None)
}
