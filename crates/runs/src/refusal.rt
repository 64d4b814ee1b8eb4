//! Why a run refuses a call.
ghost use Rattle.std.specs.Prelude.{◌≡◌, Some};
ghost use Rattle.std.specs.Fmt.{decimal};
ghost use Rattle.runs.specs.Refusals.{number};

use std::error::Error;
use std::fmt;

/// Why a run refuses a call.
#[derive(Clone, Copy, PartialEq, Eq, Debug)]
pub enum Refusal {
    /// There is no open node to close or to drop.
    NothingOpen,
    /// A selected node closes while as many numbers wait as can.
    WaitingFull,
    /// As many nodes are open as can be.
    TooDeep,
    /// As many openings were accepted as can be.
    TooMany,
}

impl Refusal {
    pub fn number(&self) -> u32
        ensures { result ≡ number self.now }
    {
        match self {
            Refusal::NothingOpen => 20,
            Refusal::WaitingFull => 21,
            Refusal::TooDeep => 22,
            Refusal::TooMany => 23,
        }
    }
}

/// The number.
impl fmt::Display for Refusal {
    ghost output = { λ refusal. Some (decimal (number refusal)) };

    fn fmt<W: fmt::Write>(&self, f: &mut fmt::Formatter<W>) -> fmt::Result {
        write!(f, "{}", self.number())
    }
}

impl Error for Refusal {}
