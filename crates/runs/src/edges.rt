//! The step of a closing that looks at the edges of a rule.
ghost use Rattle.std.specs.Prelude.{◌≡◌, ℕ, ◌↔◌};
ghost use Rattle.rules.specs.RuleNodes.{rule_nodes};
ghost use Rattle.runs.specs.Bits.{Has};
ghost use Rattle.runs.specs.Edges.{asked, EdgesMet};

use crate::node_set::NodeSet;
use rules::node::Edge;
use rules::rule::Rule;

// The set that an edge of this kind has to lead into.
fn set_asked(edge: Edge, child: NodeSet, below: NodeSet) -> NodeSet
    ensures { result ≡ asked edge child below }
{
    match edge {
        Edge::Child => child,
        Edge::Descendant => below,
    }
}

/// The rule nodes whose child edges all lead to rule nodes in `child` and whose descendant edges to rule nodes in `below`.
#[tactic(auto, using(crate::proofs::EdgeLaws::lacking))]
pub fn edges_met(rule: &Rule, child: NodeSet, below: NodeSet) -> NodeSet
    ensures { (x : ℕ) → Has result x ↔ EdgesMet (rule_nodes rule.now) child below x }
{
    let nodes = rule.nodes();
    let mut unmet = NodeSet::empty();
    for (y, node) in nodes.iter().enumerate() {
        let asked = set_asked(node.edge, child, below);
        // the root has no edge
        if y > 0 && !asked.contains(y) {
            unmet.insert(node.parent);
        }
    }
    unmet.missing_below(nodes.len())
}
