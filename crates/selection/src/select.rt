//! Selection from a source.
ghost use Rattle.std.specs.Prelude.{◌≡◌};
ghost use Rattle.rules.specs.RuleNodes.{rule_nodes};
ghost use Rattle.sources.specs.Events.{rest};
ghost use Rattle.selection.specs.Answers.{answered};
ghost use Rattle.selection.specs.Selection.{Selection};
ghost use Rattle.selection.specs.Feeding.{Feeds, Advances};

use crate::refusal::{Cause, Refusal, SelectFault};
use labels::kind::LabelKind;
use rules::rule::Rule;
use runs::run::Run;
use sources::event::Event;
use sources::source::Source;

// Feeds the run an event, and takes after a closing: how many numbers were taken.
fn feed<L: LabelKind>(
    run: &mut Run,
    labels: &[L],
    event: Event<L>,
    numbers: &mut [u32],
) -> Result<usize, Refusal>
    ensures { Feeds L.eq labels.now run.old event numbers.old result numbers.new run.new }
{
    match event {
        Event::Open(label) => {
            run.open(labels, &label)?;
            Ok(0)
        }
        Event::Close => {
            let selected = run.close()?;
            if selected && numbers.is_empty() {
                return Err(Refusal::ListFull);
            }
            Ok(run.take(numbers))
        }
    }
}

// Feeds the run the source's next event: how many numbers were taken, or none where the source is done.
#[tactic(auto, using(crate::proofs::FeedLaws::step_laws))]
fn advance<S: Source>(
    run: &mut Run,
    labels: &[S::Label],
    source: &mut S,
    numbers: &mut [u32],
) -> Result<Option<usize>, Cause<S::Fault>>
    ensures others { S.events source.new ≡ rest (S.events source.old) }
    ensures ending { S.ending source.new ≡ S.ending source.old }
    ensures advances { Advances S.Label.eq labels.now run.old (S.events source.old) (S.ending source.old) numbers.old result numbers.new run.new }
{
    let Some(event) = source.next()? else {
        return Ok(None);
    };
    match feed(run, labels, event, numbers) {
        Ok(taken) => Ok(Some(taken)),
        Err(refusal) => Err(Cause::Refused(refusal)),
    }
}

/// Makes a new run of the rule, feeds it the events of the source in order, and takes into `numbers` after each accepted closing. When the
/// source is done, the answer is how many numbers are reported. They stand at the front of `numbers`, whose rest stays as it was.
///
/// # Errors
///
/// The source's fault, the run's refusal of an event, or a list with no room for a further number: each with the accepted openings and
/// the count of the numbers reported.
#[tactic(auto, using(crate::proofs::SelectLaws::select_laws))]
pub fn select<S: Source>(
    rule: &Rule,
    labels: &[S::Label],
    source: &mut S,
    numbers: &mut [u32],
) -> Result<usize, SelectFault<S::Fault>>
    ensures selection { Selection S.Label.eq (rule_nodes rule.now) labels.now (S.events source.old) (S.ending source.old)
        numbers.old (answered result) numbers.new (S.events source.new) }
    ensures ending { S.ending source.new ≡ S.ending source.old }
{
    let mut run = Run::new(rule);
    let mut reported = 0;
    loop {
        match advance(&mut run, labels, source, &mut numbers[reported..]) {
            Ok(Some(taken)) => reported += taken,
            Ok(None) => return Ok(reported),
            Err(cause) => {
                return Err(SelectFault {
                    cause,
                    openings: run.openings(),
                    reported,
                });
            }
        }
    }
}
