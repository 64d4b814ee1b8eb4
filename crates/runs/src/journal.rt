//! Journals of calls, made on a new run.
ghost use Rattle.std.specs.Prelude.{◌≤◌, length, MatchOption, MatchResult, Some};
ghost use Rattle.runs.specs.Shortages.{stopped_at, shortage_text};
ghost use Rattle.runs.specs.Model.{Model, empty};
ghost use Rattle.runs.specs.Calls.{StandsFor};
ghost use Rattle.runs.specs.Journal.{StandsAt, Replayed, Unfinished};
ghost use Rattle.runs.specs.MadeCall.{Made, Unmade};

use crate::call::{Answer, Call};
use crate::run::Run;
use labels::kind::LabelKind;
use rules::rule::Rule;
use std::error::Error;
use std::fmt;

/// What a replay gives: the run after the last call, and how many numbers the takings moved.
#[derive(Drop)]
pub struct Outcome<'r> {
    pub run: Run<'r>,
    pub handed: usize,
}

/// Why a journal was not replayed to its end.
#[derive(Clone, Copy, PartialEq, Eq, Debug)]
pub enum Shortage {
    /// The list for the answers has fewer entries than the journal has calls.
    Answers,
    /// The taking `call`, counted from 0, moves more numbers than fit behind the `handed` ones that were handed out before it.
    Numbers { call: usize, handed: usize },
}

/// Which list is short.
impl fmt::Display for Shortage {
    ghost output = { λ shortage. Some (shortage_text shortage) };

    fn fmt<W: fmt::Write>(&self, f: &mut fmt::Formatter<W>) -> fmt::Result {
        match self {
            Shortage::Answers => write!(f, "the answers do not fit"),
            Shortage::Numbers { call, handed: _ } => {
                write!(f, "the numbers of call {call} do not fit")
            }
        }
    }
}

impl Error for Shortage {}

impl<'r> Run<'r> {
    // Makes a call, and says what it answers; the numbers that a taking moves go to the front of `out`. A taking whose numbers
    // do not fit is not made.
    fn make<L: LabelKind>(
        &mut self,
        labels: &[L],
        call: &Call<L>,
        out: &mut [u32],
    ) -> Option<Answer>
        ensures { (m : Model L) → StandsAt L.eq self.old.rule.now labels.now self.old m → MatchOption result
            (Unmade L.eq self.old.rule.now labels.now m call.now out.old out.new self.old self.new)
            (λ a. Made L.eq self.old.rule.now labels.now m call.now a out.old out.new self.new) }
    {
        match call {
            Call::Open(label) => Some(Answer::of_opening(self.open(labels, label))),
            Call::Close => Some(Answer::of_closing(self.close())),
            Call::Drop => Some(Answer::of_dropping(self.drop_open())),
            Call::Take(size) => {
                let count = (*size).min(self.waiting_count());
                if count > out.len() {
                    return None;
                }
                Some(Answer::Taken(self.take(&mut out[..count])))
            }
        }
    }

    // Makes the calls one after another on a run that has made none. Each answer goes to the call's number in `answers`; the
    // numbers that the takings move go to the front of `numbers`, and their count is the result.
    fn make_all<L: LabelKind>(
        &mut self,
        labels: &[L],
        calls: &[Call<L>],
        answers: &mut [Answer],
        numbers: &mut [u32],
    ) -> Result<usize, Shortage>
        requires new { StandsFor self.old empty }
        requires room { length calls.now ≤ length answers.old }
        ensures { MatchResult result
            (Replayed L.eq self.old.rule.now labels.now calls.now answers.old answers.new numbers.old numbers.new self.new)
            (λ f. Unfinished L.eq self.old.rule.now labels.now calls.now answers.old answers.new numbers.old numbers.new (stopped_at f)) }
    {
        let mut handed = 0;
        for (i, call) in calls.iter().enumerate() {
            let Some(answer) = self.make(labels, call, &mut numbers[handed..]) else {
                return Err(Shortage::Numbers { call: i, handed });
            };
            // By index, since the proof goes by the places that are written.
            answers[i] = answer;
            handed += answer.moved();
        }
        Ok(handed)
    }
}

/// Makes a new run of the rule, and makes the calls of the journal on it, openings with this list of labels. The answers go to
/// the front of `answers`, and the numbers that the takings move to the front of `numbers`; the rests stay as they were.
///
/// # Errors
///
/// With fewer answers than calls nothing is done. A taking whose numbers do not fit is not made, and the run is given up; the
/// calls before it are made and answered.
#[tactic(auto, using(crate::proofs::ReplayLaws::few_answers))]
pub fn replay<'r, L: LabelKind>(
    rule: &'r Rule,
    labels: &[L],
    calls: &[Call<L>],
    answers: &mut [Answer],
    numbers: &mut [u32],
) -> Result<Outcome<'r>, Shortage>
    ensures { MatchResult result
        (λ r. Replayed L.eq rule.now labels.now calls.now answers.old answers.new numbers.old numbers.new r.run r.handed)
        (λ f. Unfinished L.eq rule.now labels.now calls.now answers.old answers.new numbers.old numbers.new (stopped_at f)) }
{
    if answers.len() < calls.len() {
        return Err(Shortage::Answers);
    }
    let mut run = Run::new(rule);
    let handed = run.make_all(labels, calls, answers, numbers)?;
    Ok(Outcome { run, handed })
}
