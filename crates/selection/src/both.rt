//! Selection from two sources, side by side.
ghost use Rattle.std.specs.Prelude.{◌≡◌};
ghost use Rattle.rules.specs.RuleNodes.{rule_nodes};
ghost use Rattle.selection.specs.Answers.{answered};
ghost use Rattle.selection.specs.Selection.{Selection};
ghost use Rattle.selection.specs.Pairing.{PairedAlike};

use crate::refusal::SelectFault;
use crate::select::select;
use rules::rule::Rule;
use sources::source::Source;

/// What two selections answer.
#[derive(Clone, Copy, PartialEq, Eq, Debug)]
pub struct Both<F, G> {
    pub first: Result<usize, SelectFault<F>>,
    pub second: Result<usize, SelectFault<G>>,
}

/// Selects from two sources of one kind of labels, with one rule and its labels: from the first into `ones`, from the second into `twos`.
/// Where the nodes of the two pair off, whatever the order of siblings, the same nodes are reported.
pub fn select_both<S: Source, T: Source<Label = S::Label>>(
    rule: &Rule,
    labels: &[S::Label],
    first: &mut S,
    second: &mut T,
    ones: &mut [u32],
    twos: &mut [u32],
) -> Both<S::Fault, T::Fault>
    ensures first { Selection S.Label.eq (rule_nodes rule.now) labels.now (S.events first.old) (S.ending first.old)
        ones.old (answered result.first) ones.new (S.events first.new) }
    ensures second { Selection S.Label.eq (rule_nodes rule.now) labels.now (T.events second.old) (T.ending second.old)
        twos.old (answered result.second) twos.new (T.events second.new) }
    ensures first_ending { S.ending first.new ≡ S.ending first.old }
    ensures second_ending { T.ending second.new ≡ T.ending second.old }
    ensures alike { PairedAlike S.Label.eq (S.events first.old) (T.events second.old) (answered result.first) (answered result.second) ones.new twos.new }
{
    Both {
        first: select(rule, labels, first, ones),
        second: select(rule, labels, second, twos),
    }
}
