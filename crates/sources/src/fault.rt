//! What can be wrong with a folder table.
ghost use Rattle.std.specs.Prelude.{◌≡◌, Some};
ghost use Rattle.sources.specs.Faults.{number, record_number, fault_text};

use std::error::Error;
use std::fmt;

/// What is wrong with a folder table.
#[derive(Clone, Copy, PartialEq, Eq, Debug)]
pub enum TableFault {
    /// The depth of the record with this number.
    WrongDepth(usize),
}

impl TableFault {
    pub fn number(&self) -> u32
        ensures { result ≡ number self.now }
    {
        match self {
            TableFault::WrongDepth(_) => 40,
        }
    }

    /// The number of the record at fault.
    pub fn record(&self) -> usize
        ensures { result ≡ record_number self.now }
    {
        match self {
            TableFault::WrongDepth(record) => *record,
        }
    }
}

/// The number and the record, as `40, record 2`.
impl fmt::Display for TableFault {
    ghost output = { λ fault. Some (fault_text fault) };

    fn fmt<W: fmt::Write>(&self, f: &mut fmt::Formatter<W>) -> fmt::Result {
        write!(f, "{}, record {}", self.number(), self.record())
    }
}

impl Error for TableFault {}
