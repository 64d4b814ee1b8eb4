//! The calls of a run and their answers, as values.
ghost use Rattle.std.specs.Prelude.{◌≡◌};
ghost use Rattle.runs.specs.Answers.{told, told_by, count_taken, opened, closed, dropped};

use crate::refusal::Refusal;

/// A call.
#[derive(Clone, Copy, PartialEq, Eq, Debug)]
pub enum Call<L> {
    /// An opening with this label.
    Open(L),
    Close,
    Drop,
    /// A taking into a list of this length.
    Take(usize),
}

/// What a call answers. A refusal is one of the answers, and not an `Err` around them, since the reference model tells one answer for
/// each call.
#[derive(Clone, Copy, PartialEq, Eq, Debug)]
pub enum Answer {
    /// The new node has this number.
    Opened(u32),
    /// Whether the closed node is selected.
    Closed(bool),
    Dropped,
    /// So many numbers were moved.
    Taken(usize),
    Refused(Refusal),
}

impl Answer {
    /// How many numbers the call moved.
    pub fn moved(&self) -> usize
        ensures { result ≡ count_taken (told self.now) }
    {
        match self {
            Answer::Taken(count) => *count,
            _ => 0,
        }
    }

    // What an opening answers.
    pub(crate) fn of_opening(opening: Result<u32, Refusal>) -> Answer
        ensures { told result ≡ told_by opened opening }
    {
        match opening {
            Ok(number) => Answer::Opened(number),
            Err(refusal) => Answer::Refused(refusal),
        }
    }

    // What a closing answers.
    pub(crate) fn of_closing(closing: Result<bool, Refusal>) -> Answer
        ensures { told result ≡ told_by closed closing }
    {
        match closing {
            Ok(selected) => Answer::Closed(selected),
            Err(refusal) => Answer::Refused(refusal),
        }
    }

    // What a dropping answers.
    pub(crate) fn of_dropping(dropping: Result<(), Refusal>) -> Answer
        ensures { told result ≡ told_by (λ _. dropped) dropping }
    {
        match dropping {
            Ok(()) => Answer::Dropped,
            Err(refusal) => Answer::Refused(refusal),
        }
    }
}
