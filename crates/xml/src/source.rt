//! The reader as a source.
ghost use Rattle.std.specs.Prelude.{◌≡◌, false, [], map};
ghost use Rattle.sources.specs.Events.{MeansOnly, answer, rest};
ghost use Rattle.xml.specs.Reading.{Reads};
ghost use Rattle.xml.specs.Documents.{DoneAsDocument};
ghost use Rattle.xml.specs.Fronts.{RefusedAsFront};
ghost use Rattle.xml.specs.Means.{xml_events, xml_ending, xml_spelled, spelled, begun, begun_by};
ghost use Rattle.xml.specs.Nesting.{xml_nested};

use crate::fault::XmlFault;
use crate::reader::{Tags, Xml};
use crate::tags::Tag;
use labels::name::Name;
use sources::event::Event;
use sources::source::Source;

impl<'a> Xml<'a> {
    /// A reader of the input, at its start and before any event. The input has one meaning, in which each label has the bytes of its
    /// element's name, and is done exactly when it is a document. Where it is refused, the events are those of a front of a document.
    #[tactic(auto, using(crate::proofs::Grammar::only_meaning, crate::proofs::Grammar::done_document, crate::proofs::Breaks::refused_front, crate::proofs::Labels::labels_back))]
    pub fn new(input: &'a [u8]) -> Xml<'a>
        ensures whole { result.tags.input.now ≡ input.now }
        ensures front { result.tags.place ≡ 0 }
        ensures fresh { begun result ≡ false }
        ensures meaning { MeansOnly (Reads input.now 0 [] false) (xml_spelled result) (xml_ending result) }
        ensures labels { map spelled (xml_events result) ≡ xml_spelled result }
        ensures document { DoneAsDocument input.now (xml_spelled result) (xml_ending result) }
        ensures refused { RefusedAsFront input.now (xml_spelled result) (xml_ending result) }
    {
        Xml {
            tags: Tags::new(input),
            closing: false,
        }
    }
}

impl<'a> Source for Xml<'a> {
    type Label = Name;

    type Fault = XmlFault;

    ghost events = { xml_events };

    ghost ending = { xml_ending };

    ghost nested = { xml_nested };

    // What the trait says, and whether an event is behind the reader then.
    fn next(&mut self) -> Result<Option<Event<Name>>, XmlFault>
        ensures answer { result ≡ answer (xml_events self.old) (xml_ending self.old) }
        ensures others { xml_events self.new ≡ rest (xml_events self.old) }
        ensures ending { xml_ending self.new ≡ xml_ending self.old }
        ensures begun { begun self.new ≡ begun_by (begun self.old) result }
    {
        if self.closing {
            self.closing = false;
            return Ok(Some(Event::Close));
        }
        match self.tags.next()? {
            None => Ok(None),
            Some(Tag::Open(label)) => Ok(Some(Event::Open(label))),
            Some(Tag::Empty(label)) => {
                self.closing = true;
                Ok(Some(Event::Open(label)))
            }
            Some(Tag::Close) => Ok(Some(Event::Close)),
        }
    }
}
