//! The nodes of a rule.

/// How a rule node hangs under its parent.
#[derive(Clone, Copy, PartialEq, Eq, Debug)]
pub enum Edge {
    Child,
    Descendant,
}

/// A rule node: the number of its parent, the edge to it, and whether every label meets its test.
#[derive(Clone, Copy, PartialEq, Eq, Debug)]
pub struct RuleNode {
    pub parent: usize,
    pub edge: Edge,
    pub any: bool,
}

impl RuleNode {
    // A root that every label meets.
    pub(crate) const ANY: RuleNode = RuleNode {
        parent: 0,
        edge: Edge::Child,
        any: true,
    };
}
