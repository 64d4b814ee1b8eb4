//! What is proved of the reference model.
ghost use Rattle.runs.specs.Examples.{WorkedTrees};
ghost use Rattle.runs.specs.Laws.{ReachedSelected, CallsAnswered};

use labels::kind::LabelKind;

/// After any calls whatever, the numbers handed out, and then those that wait, are the selected closed nodes. So a run of which a
/// program makes the calls itself, with another list of labels for each opening if it likes, is told as a journal is.
pub fn reached_states_are_selected()
    ensures { ReachedSelected }
{}

/// A call has one answer and one next state, in every state that calls lead to: whatever kind of labels the openings bring, and where
/// each brings a set of rule nodes of its own.
pub fn calls_have_one_answer<L: LabelKind>()
    ensures { CallsAnswered L.eq }
{}

/// The examples come out of the reference model as they should.
pub fn examples_are_selected()
    ensures { WorkedTrees }
{}
