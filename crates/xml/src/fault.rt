//! What can be wrong with a listing.
ghost use Rattle.std.specs.Prelude.{◌≡◌, Some};
ghost use Rattle.xml.specs.Faults.{scan_number, scan_place, number, place, fault_text, look_number, look_place, look_text};
ghost use Rattle.xml.specs.declared.fault.LookFault.{LookFault};
ghost use Rattle.xml.specs.declared.fault.XmlFault.{XmlFault};

use std::error::Error;
use std::fmt;

/// What a scan finds, with the place.
#[derive(Clone, Copy, PartialEq, Eq, Debug)]
pub enum ScanFault {
    /// The byte is not allowed.
    Byte(usize),
    /// The input ends too early; its length.
    End(usize),
    /// The name has too many bytes.
    LongName(usize),
}

/// What the source finds, with the place.
#[derive(Clone, Copy, PartialEq, Eq, Debug)]
pub enum XmlFault {
    /// A scan found it.
    Scan(ScanFault),
    /// An end tag's name is not the innermost open element's.
    WrongName(usize),
    /// `<!` begins no comment.
    NotComment(usize),
    /// Too many elements are open for one more.
    Deep(usize),
}

/// Why a look ahead answers no name.
#[derive(Clone, Copy, PartialEq, Eq, Debug)]
pub enum LookFault {
    /// What next would answer.
    Listing(XmlFault),
    /// An event is past.
    Begun,
}

impl ScanFault {
    pub fn number(&self) -> u32
        ensures { result ≡ scan_number self.now }
    {
        match self {
            ScanFault::Byte(_) => 30,
            ScanFault::End(_) => 31,
            ScanFault::LongName(_) => 32,
        }
    }

    pub fn place(&self) -> usize
        ensures { result ≡ scan_place self.now }
    {
        match self {
            ScanFault::Byte(at) | ScanFault::End(at) | ScanFault::LongName(at) => *at,
        }
    }
}

impl XmlFault {
    pub fn number(&self) -> u32
        ensures { result ≡ number self.now }
    {
        match self {
            XmlFault::Scan(fault) => fault.number(),
            XmlFault::WrongName(_) => 33,
            XmlFault::NotComment(_) => 34,
            XmlFault::Deep(_) => 35,
        }
    }

    pub fn place(&self) -> usize
        ensures { result ≡ place self.now }
    {
        match self {
            XmlFault::Scan(fault) => fault.place(),
            XmlFault::WrongName(at) | XmlFault::NotComment(at) | XmlFault::Deep(at) => *at,
        }
    }
}

/// The number and the place, as `33 at 8`.
impl fmt::Display for XmlFault {
    ghost output = { λ f. Some (fault_text f) };

    fn fmt<W: fmt::Write>(&self, f: &mut fmt::Formatter<W>) -> fmt::Result {
        write!(f, "{} at {}", self.number(), self.place())
    }
}

impl Error for XmlFault {}

impl LookFault {
    pub fn number(&self) -> u32
        ensures { result ≡ look_number self.now }
    {
        match self {
            LookFault::Listing(fault) => fault.number(),
            LookFault::Begun => 25,
        }
    }

    /// The place, if it has one.
    pub fn place(&self) -> Option<usize>
        ensures { result ≡ look_place self.now }
    {
        match self {
            LookFault::Listing(fault) => Some(fault.place()),
            LookFault::Begun => None,
        }
    }
}

/// The number, at its place if it has one.
impl fmt::Display for LookFault {
    ghost output = { λ f. Some (look_text f) };

    fn fmt<W: fmt::Write>(&self, f: &mut fmt::Formatter<W>) -> fmt::Result {
        let number = self.number();
        match self.place() {
            None => write!(f, "{number}"),
            Some(place) => write!(f, "{number} at {place}"),
        }
    }
}

impl Error for LookFault {}

impl From<ScanFault> for XmlFault {
    ghost from_gives = { λ x y. y ≡ XmlFault.Scan x };

    fn from(found: ScanFault) -> XmlFault {
        XmlFault::Scan(found)
    }
}

impl From<XmlFault> for LookFault {
    ghost from_gives = { λ x y. y ≡ LookFault.Listing x };

    fn from(found: XmlFault) -> LookFault {
        LookFault::Listing(found)
    }
}
