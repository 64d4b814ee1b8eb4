//! Why an input is refused.
ghost use Rattle.std.specs.Prelude.{◌≡◌, Some};
ghost use Rattle.reports.specs.Refusals.{Ends, number, place, refusal_text};
ghost use Rattle.reports.specs.declared.refusal.Refusal.{Refusal};

use rules::refusal::TextRefusal;
use selection::refusal::Cause;
use std::error::Error;
use std::fmt;
use xml::fault::XmlFault;

/// The bytes of an input, at most.
pub const INPUT_LIMIT: usize = 65_536;

/// Why an input is refused: it is too long, its rule text or its listing is at fault, or the selection from a listing of so many bytes is
/// refused.
#[derive(Clone, Copy, PartialEq, Eq, Debug)]
pub enum Refusal {
    Input,
    Rule(TextRefusal),
    Listing(XmlFault),
    Selection {
        refusal: selection::refusal::Refusal,
        length: usize,
    },
}

impl From<TextRefusal> for Refusal {
    ghost from_gives = { λ text refusal. refusal ≡ Refusal.Rule text };

    fn from(text: TextRefusal) -> Refusal {
        Refusal::Rule(text)
    }
}

impl Refusal {
    /// Why the selection from a listing of so many bytes ended.
    pub fn of_selection(cause: Cause<XmlFault>, length: usize) -> Refusal
        ensures { Ends cause length result }
    {
        match cause {
            Cause::Fault(fault) => Refusal::Listing(fault),
            Cause::Refused(refusal) => Refusal::Selection { refusal, length },
        }
    }

    pub fn number(&self) -> u32
        ensures { result ≡ number self.now }
    {
        match self {
            Refusal::Input => 50,
            Refusal::Rule(refusal) => refusal.number(),
            Refusal::Listing(fault) => fault.number(),
            Refusal::Selection { refusal, length: _ } => refusal.number(),
        }
    }

    /// The place in the input, the rule text or the listing; of a refused selection the end of the listing.
    pub fn place(&self) -> usize
        ensures { result ≡ place self.now }
    {
        match self {
            Refusal::Input => INPUT_LIMIT,
            Refusal::Rule(refusal) => refusal.place(),
            Refusal::Listing(fault) => fault.place(),
            Refusal::Selection { refusal: _, length } => *length,
        }
    }
}

/// The number at the place, as `33 at 8`.
impl fmt::Display for Refusal {
    ghost output = { λ refusal. Some (refusal_text refusal) };

    fn fmt<W: fmt::Write>(&self, f: &mut fmt::Formatter<W>) -> fmt::Result {
        write!(f, "{} at {}", self.number(), self.place())
    }
}

impl Error for Refusal {}
