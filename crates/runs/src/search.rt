//! The search for the rule nodes whose tests a label meets.
ghost use Rattle.std.specs.Prelude.{◌≡◌, true};
ghost use Rattle.rules.specs.Rule.{any_of};
ghost use Rattle.rules.specs.RuleNodes.{rule_nodes};
ghost use Rattle.rules.specs.Embedding.{Meets};
ghost use Rattle.runs.specs.Bits.{SetOf};

use crate::node_set::NodeSet;
use labels::kind::LabelKind;
use rules::rule::Rule;

// The rule nodes with the test any.
#[tactic(auto, using(crate::proofs::SearchLaws::any_nodes))]
fn any_nodes(rule: &Rule) -> NodeSet
    ensures { SetOf (rule_nodes rule.now) (λ x. any_of (rule_nodes rule.now) x ≡ true) result }
{
    let mut met = NodeSet::empty();
    for (x, node) in rule.nodes().iter().enumerate() {
        if node.any {
            met.insert(x);
        }
    }
    met
}

/// The rule nodes whose test `label` meets, where `labels` has the labels of the tests by the numbers of the rule nodes.
#[tactic(auto, using(crate::proofs::SearchLaws::named_nodes))]
pub fn nodes_met<L: LabelKind>(rule: &Rule, labels: &[L], label: &L) -> NodeSet
    ensures { SetOf (rule_nodes rule.now) (Meets L.eq (rule_nodes rule.now) labels.now label.now) result }
{
    let count = rule.nodes().len().min(labels.len());
    let mut met = any_nodes(rule);
    for (x, test) in labels[..count].iter().enumerate() {
        if label == test {
            met.insert(x);
        }
    }
    met
}
