//! Reading tag by tag.
ghost use Rattle.std.specs.Prelude.{◌≡◌, ◌≤◌, false, [], length, drop, Decides, MatchResult};
ghost use Rattle.labels.specs.NameOf.{name_of};
ghost use Rattle.labels.specs.Spelling.{name_limit};
ghost use Rattle.xml.specs.Markup.{markup};
ghost use Rattle.xml.specs.Reading.{Innermost, Reads, Room};
ghost use Rattle.xml.specs.Means.{tags_names, tags_meaning};
ghost use Rattle.xml.specs.Inner.{NoRoom, Gives, Refuses, Comes};
ghost use Rattle.xml.specs.declared.markup.Markup.TheVariants.{Nothing, StartTag, EndTag};

use crate::fault::{ScanFault, XmlFault};
use crate::markup::Stop;
use crate::reader::Tags;
use crate::scan::{end_tag_close, name_end, start_tag};
use crate::skip::skip;
use arrayvec::ArrayVec;
use labels::name::Name;

// What a tag does: it opens an element with the label, which may be empty, or closes the innermost.
#[derive(Clone, Copy)]
pub(crate) enum Tag {
    Open(Name),
    Empty(Name),
    Close,
}

// The label of an element's name.
#[tactic(auto, using(labels::proofs::Making::is_name_of))]
fn label(bytes: &[u8]) -> Name
    requires { length bytes.now ≤ name_limit }
    ensures { result ≡ name_of bytes.now }
{
    Name::try_from(bytes).unwrap()
}

impl<'a> Tags<'a> {
    // What reads from the start of the input.
    pub(crate) fn new(input: &'a [u8]) -> Tags<'a>
        ensures whole { result.input.now ≡ input.now }
        ensures front { result.place ≡ 0 }
        ensures fresh { result.rooted ≡ false }
        ensures reads { Reads input.now 0 [] false (tags_meaning result).events (tags_meaning result).ending }
    {
        Tags {
            input,
            place: 0,
            opened: ArrayVec::new(),
            rooted: false,
        }
    }

    // Whether the name is the innermost open element's.
    #[tactic(auto, using(crate::proofs::Steps::last_innermost))]
    fn is_innermost(&self, name: &[u8]) -> bool
        ensures { Decides result (Innermost (tags_names self.now) name.now) }
    {
        match self.opened.last() {
            Some(innermost) => *innermost == name,
            None => false,
        }
    }

    // Whether one more element may begin with the start tag at the place.
    fn room(&self) -> Result<(), XmlFault>
        requires { markup (drop self.now.place self.now.input.now) ≡ StartTag }
        ensures { MatchResult result (λ _. Room (tags_names self.now) self.now.rooted) (NoRoom self.now) }
    {
        if self.opened.is_empty() && self.rooted {
            return Err(ScanFault::Byte(self.place).into());
        }
        if self.opened.is_full() {
            return Err(XmlFault::Deep(self.place));
        }
        Ok(())
    }

    // Goes through the start tag at the place.
    fn enter(&mut self) -> Result<Option<Tag>, XmlFault>
        requires { markup (drop self.old.place self.old.input.now) ≡ StartTag }
        ensures { MatchResult result (Gives self.old self.new) (Refuses self.old self.new) }
    {
        self.room()?;
        let tag = start_tag(self.input, self.place + 1)?;
        let label = label(tag.name);
        self.rooted = true;
        self.place = tag.end;
        if tag.empty {
            return Ok(Some(Tag::Empty(label)));
        }
        self.opened.push(tag.name);
        Ok(Some(Tag::Open(label)))
    }

    // Goes through the end tag at the place.
    fn leave(&mut self) -> Result<Option<Tag>, XmlFault>
        requires { markup (drop self.old.place self.old.input.now) ≡ EndTag }
        ensures { MatchResult result (Gives self.old self.new) (Refuses self.old self.new) }
    {
        let input = self.input;
        let from = self.place + 2;
        let end = name_end(input, from)?;
        if !self.is_innermost(&input[from..end]) {
            return Err(XmlFault::WrongName(from));
        }
        let close = end_tag_close(input, end)?;
        self.opened.pop();
        self.place = close + 1;
        Ok(Some(Tag::Close))
    }

    // Reads on to the next tag or the end, and tells which.
    fn pass(&mut self) -> Result<Stop, XmlFault>
        ensures { MatchResult result (Comes self.old self.new) (Refuses self.old self.new) }
    {
        let input = self.input;
        let inside = !self.opened.is_empty();
        skip(input, &mut self.place, inside)
    }

    // What is answered at the end of the input.
    fn finish(&self) -> Result<Option<Tag>, XmlFault>
        requires { markup (drop self.now.place self.now.input.now) ≡ Nothing }
        ensures { MatchResult result (Gives self.now self.now) (Refuses self.now self.now) }
    {
        if self.opened.is_empty() && self.rooted {
            Ok(None)
        } else {
            Err(ScanFault::End(self.input.len()).into())
        }
    }

    // Goes through the next tag. With none left it answers None, or the fault. What each of the three asks of the place it has from `pass`;
    // a type for each markup would be no plainer, with one function that makes it and one that takes it.
    pub(crate) fn next(&mut self) -> Result<Option<Tag>, XmlFault>
        ensures { MatchResult result (Gives self.old self.new) (Refuses self.old self.new) }
    {
        match self.pass()? {
            Stop::StartTag => self.enter(),
            Stop::EndTag => self.leave(),
            Stop::End => self.finish(),
        }
    }
}
