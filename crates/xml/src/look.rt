//! Looking ahead at the root's name.
ghost use Rattle.std.specs.Prelude.{◌≡◌, MatchResult};
ghost use Rattle.xml.specs.Means.{Looks, NoLook, Kept, Unmoved};
ghost use Rattle.xml.specs.Inner.{RootNamed, RootFails};

use crate::fault::{LookFault, ScanFault, XmlFault};
use crate::markup::Stop;
use crate::reader::{Tags, Xml};
use crate::scan::{name_end, start_tag};
use crate::skip::skip;

// Puts a reader's place back where it stood.
struct Guard<'a> {
    place: &'a mut usize,
    saved: usize,
}

impl Drop for Guard<'_> {
    fn drop(self)
        ensures { self.exit.0.now ≡ self.entry.saved }
    {
        *self.place = self.saved;
        let Guard { place: _, saved: _ } = self;
    }
}

// Reads on to the root's start tag, and answers its name.
fn root_name<'a>(input: &'a [u8], place: &mut usize) -> Result<&'a [u8], XmlFault>
    ensures { MatchResult result (λ w. RootNamed input.now place.old w.now) (RootFails input.now place.old) }
{
    let stop = skip(input, place, false)?;
    let at = *place;
    match stop {
        Stop::StartTag => Ok(start_tag(input, at + 1)?.name),
        Stop::EndTag => {
            name_end(input, at + 2)?;
            Err(XmlFault::WrongName(at + 2))
        }
        Stop::End => Err(ScanFault::End(input.len()).into()),
    }
}

impl<'a> Tags<'a> {
    // The root's name, with the place put back.
    fn root(&mut self) -> Result<&'a [u8], XmlFault>
        ensures answer { MatchResult result (λ w. RootNamed self.old.input.now self.old.place w.now) (RootFails self.old.input.now self.old.place) }
        ensures kept { Kept self.old self.new }
    {
        let input = self.input;
        let saved = self.place;
        let guard = Guard {
            place: &mut self.place,
            saved,
        };
        root_name(input, guard.place)
    }
}

impl<'a> Xml<'a> {
    /// The root's name, before the first event.
    pub fn look_ahead(&mut self) -> Result<&'a [u8], LookFault>
        ensures answer { MatchResult result (λ w. Looks self.old w.now) (NoLook self.old) }
        ensures unmoved { Unmoved self.old self.new }
    {
        if self.tags.rooted {
            return Err(LookFault::Begun);
        }
        Ok(self.tags.root()?)
    }
}
