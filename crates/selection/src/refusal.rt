//! Why a selection ends before its source.
ghost use Rattle.std.specs.Prelude.{◌≡◌, Some};
ghost use Rattle.selection.specs.Answers.{number, refusal_text};
ghost use Rattle.selection.specs.declared.refusal.Refusal.{Refusal};
ghost use Rattle.selection.specs.declared.refusal.Cause.{Cause};

use std::error::Error;
use std::fmt;

/// What a selection is refused for: by the run, or since the caller's list has no room for a further number.
#[derive(Clone, Copy, PartialEq, Eq, Debug)]
pub enum Refusal {
    Run(runs::refusal::Refusal),
    ListFull,
}

impl Refusal {
    pub fn number(&self) -> u32
        ensures { result ≡ number self.now }
    {
        match self {
            Refusal::Run(refusal) => refusal.number(),
            Refusal::ListFull => 24,
        }
    }
}

/// The number.
impl fmt::Display for Refusal {
    ghost output = { λ refusal. Some (refusal_text refusal) };

    fn fmt<W: fmt::Write>(&self, f: &mut fmt::Formatter<W>) -> fmt::Result {
        write!(f, "{}", self.number())
    }
}

impl Error for Refusal {}

impl From<runs::refusal::Refusal> for Refusal {
    ghost from_gives = { λ run refusal. refusal ≡ Refusal.Run run };

    fn from(run: runs::refusal::Refusal) -> Refusal {
        Refusal::Run(run)
    }
}

/// What ends a selection: the source's fault, or a refusal.
#[derive(Clone, Copy, PartialEq, Eq, Debug)]
pub enum Cause<F> {
    Fault(F),
    Refused(Refusal),
}

impl<F> From<F> for Cause<F> {
    ghost from_gives = { λ fault cause. cause ≡ Cause.Fault fault };

    fn from(fault: F) -> Cause<F> {
        Cause::Fault(fault)
    }
}

/// A selection that ended before its source was done: the cause, the accepted openings, and the count of the numbers reported.
#[derive(Clone, Copy, PartialEq, Eq, Debug)]
pub struct SelectFault<F> {
    pub cause: Cause<F>,
    pub openings: u32,
    pub reported: usize,
}
