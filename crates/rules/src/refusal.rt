//! Why a rule is refused.
ghost use Rattle.std.specs.Prelude.{◌≡◌, Some};
ghost use Rattle.rules.specs.Refusals.{number, place, printed_text, record_number, bad_record, printed_record};

use std::error::Error;
use std::fmt;

/// Why a rule text is refused, with the place.
#[derive(Clone, Copy, PartialEq, Eq, Debug)]
pub enum TextRefusal {
    /// The list for names has too few entries.
    ShortList,
    /// The text has no bytes, or too many.
    Length,
    /// The token at the place can't stand there in any rule text.
    NotAllowed(usize),
    /// The name at the place has too many bytes.
    LongName(usize),
    /// The test at the place is one too many.
    ManyTests(usize),
    /// The bracket at the place is open inside too many others.
    DeepBracket(usize),
}

impl TextRefusal {
    pub fn number(&self) -> u32
        ensures { result ≡ number self.now }
    {
        match self {
            TextRefusal::ShortList => 17,
            TextRefusal::Length => 10,
            TextRefusal::NotAllowed(_) => 11,
            TextRefusal::LongName(_) => 12,
            TextRefusal::ManyTests(_) => 13,
            TextRefusal::DeepBracket(_) => 14,
        }
    }

    pub fn place(&self) -> usize
        ensures { result ≡ place self.now }
    {
        match self {
            TextRefusal::ShortList | TextRefusal::Length => 0,
            TextRefusal::NotAllowed(at)
            | TextRefusal::LongName(at)
            | TextRefusal::ManyTests(at)
            | TextRefusal::DeepBracket(at) => *at,
        }
    }
}

/// The number at the place, as `11 at 5`.
impl fmt::Display for TextRefusal {
    ghost output = { λ f. Some (printed_text f) };

    fn fmt<W: fmt::Write>(&self, f: &mut fmt::Formatter<W>) -> fmt::Result {
        write!(f, "{} at {}", self.number(), self.place())
    }
}

impl Error for TextRefusal {}

/// Why records are refused: their size, or the first bad record by its number.
#[derive(Clone, Copy, PartialEq, Eq, Debug)]
pub enum RecordRefusal {
    Size,
    Bad(usize),
}

impl RecordRefusal {
    pub fn number(&self) -> u32
        ensures { result ≡ record_number self.now }
    {
        match self {
            RecordRefusal::Size => 15,
            RecordRefusal::Bad(_) => 16,
        }
    }

    pub fn record(&self) -> Option<usize>
        ensures { result ≡ bad_record self.now }
    {
        match self {
            RecordRefusal::Size => None,
            RecordRefusal::Bad(number) => Some(*number),
        }
    }
}

/// The number, and the bad record if there is one, as `16, record 2`.
impl fmt::Display for RecordRefusal {
    ghost output = { λ f. Some (printed_record f) };

    fn fmt<W: fmt::Write>(&self, f: &mut fmt::Formatter<W>) -> fmt::Result {
        let number = self.number();
        match self.record() {
            None => write!(f, "{number}"),
            Some(record) => write!(f, "{number}, record {record}"),
        }
    }
}

impl Error for RecordRefusal {}
