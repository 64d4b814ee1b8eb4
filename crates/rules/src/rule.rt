//! Rules.
ghost use Rattle.std.specs.Prelude.{◌<◌, ◌≤◌, length, take};
ghost use Rattle.rules.specs.Limits.{node_limit};
ghost use Rattle.rules.specs.Rule.{Rooted, Ordered};

use crate::node::RuleNode;

/// The rule nodes that a rule has at most.
pub const NODE_LIMIT: usize = 64;

/// A rule: 1 to 64 rule nodes. Node 0 is the root, and each parent is numbered below its child. The labels of its tests stand in a list
/// of their own, by the numbers of the rule nodes, so that a rule serves every kind of labels.
// An array with a count, since a rule is `Copy` for its callers, and an `ArrayVec` is not.
#[derive(Clone, Copy)]
pub struct Rule {
    pub(crate) nodes: [RuleNode; NODE_LIMIT],
    pub(crate) len: usize,
    ghost some: { 0 < length (take len nodes) },
    ghost few: { len ≤ node_limit },
    ghost rooted: { Rooted (take len nodes) },
    ghost ordered: { Ordered (take len nodes) },
}

impl Rule {
    ghost use Rattle.std.specs.Prelude.{◌≡◌, [], ◌∷◌};
    ghost use Rattle.rules.specs.Rule.{any_node};
    ghost use Rattle.rules.specs.RuleNodes.{rule_nodes};

    /// A new rule is one node that every label meets.
    pub fn new() -> Rule
        ensures { rule_nodes result ≡ any_node ∷ [] }
    {
        Rule {
            nodes: [RuleNode::ANY; NODE_LIMIT],
            len: 1,
        }
    }

    /// The rule nodes, by their numbers.
    pub fn nodes(&self) -> &[RuleNode]
        ensures { result.now ≡ rule_nodes self.now }
    {
        &self.nodes[..self.len]
    }
}

/// A new rule.
impl Default for Rule {
    ghost use Rattle.std.specs.Prelude.{◌≡◌, [], ◌∷◌};
    ghost use Rattle.rules.specs.Rule.{any_node};
    ghost use Rattle.rules.specs.RuleNodes.{rule_nodes};

    ghost is_default = { λ rule. rule_nodes rule ≡ any_node ∷ [] };

    fn default() -> Rule {
        Rule::new()
    }
}
