//! What a source of events is.
ghost use Rattle.std.specs.Prelude.{◌≡◌, List, None, Option};
ghost use Rattle.sources.specs.declared.event.Event.{Event};
ghost use Rattle.sources.specs.Events.{ClosedFrom, answer, rest};

use crate::event::Event;
use labels::kind::LabelKind;

/// A source means the events still to come, finitely many, and its ending: done, which is None, or a fault.
pub trait Source {
    type Label: LabelKind;

    type Fault: Drop;

    ghost events: { Self → List (Event Self.Label) };

    ghost ending: { Self → Option Self.Fault };

    /// Hands out the first event and keeps the others. With no event left it answers the ending, each time.
    fn next(&mut self) -> Result<Option<Event<Self::Label>>, Self::Fault>
        ensures answer { result ≡ answer (events self.old) (ending self.old) }
        ensures others { events self.new ≡ rest (events self.old) }
        ensures ending { ending self.new ≡ ending self.old };

    /// Where the ending is done, each opening still to come has its closing, properly nested.
    ghost nested: { (s : Self) → ending s ≡ None → ClosedFrom 0 (events s) };
}
