//! Rules from records.
ghost use Rattle.std.specs.Prelude.{Bool, Decides, MatchOption, MatchResult, Some};
ghost use Rattle.std.specs.Fmt.{decimal};
ghost use Rattle.rules.specs.declared.node.RuleNode.{RuleNode};
ghost use Rattle.rules.specs.Records.{EdgeFrom, AnyByte, Hangs, RecordWrites, OnlySet, OnlyUnset, Unset};

use crate::node::{Edge, RuleNode};
use crate::refusal::RecordRefusal;
use crate::rule::{NODE_LIMIT, Rule};
use std::error::Error;
use std::fmt;

// The bytes of a record: parent, edge, any.
const RECORD_LEN: usize = 3;

/// A byte that means no edge.
#[derive(Clone, Copy, PartialEq, Eq, Debug)]
pub struct UnknownEdge(pub u8);

/// The byte.
impl fmt::Display for UnknownEdge {
    ghost output = { λ unknown. Some (decimal unknown.0) };

    fn fmt<W: fmt::Write>(&self, f: &mut fmt::Formatter<W>) -> fmt::Result {
        write!(f, "{}", self.0)
    }
}

impl Error for UnknownEdge {}

/// The edge that a record's byte means: 0 child, 1 descendant.
impl TryFrom<u8> for Edge {
    type Error = UnknownEdge;

    ghost try_from_gives = { EdgeFrom };

    fn try_from(byte: u8) -> Result<Edge, UnknownEdge> {
        match byte {
            0 => Ok(Edge::Child),
            1 => Ok(Edge::Descendant),
            _ => Err(UnknownEdge(byte)),
        }
    }
}

// Whether the test is any, unless the byte means neither. A function, since neither type is of this crate.
fn any_from(byte: u8) -> Option<bool>
    ensures { MatchOption result ((any : Bool) → AnyByte byte any → ⊥) (AnyByte byte) }
{
    match byte {
        0 => Some(false),
        1 => Some(true),
        _ => None,
    }
}

// Whether a rule node with this number can have the parent and the edge.
fn hangs(number: usize, parent: usize, edge: Edge) -> bool
    ensures { Decides result (Hangs number parent edge) }
{
    if number > 0 {
        parent < number
    } else {
        parent == 0 && edge == Edge::Child
    }
}

// The rule node with this number that the record writes, unless it writes none.
fn node_of(number: usize, bytes: &[u8; RECORD_LEN]) -> Option<RuleNode>
    ensures { MatchOption result ((n : RuleNode) → RecordWrites number bytes.now n → ⊥) (RecordWrites number bytes.now) }
{
    let [parent, edge, any] = *bytes;
    let parent = usize::from(parent);
    let edge = Edge::try_from(edge).ok()?;
    let any = any_from(any)?;
    if hangs(number, parent, edge) {
        Some(RuleNode { parent, edge, any })
    } else {
        None
    }
}

// The rule that the records write.
fn rule_from(bytes: &[u8]) -> Result<Rule, RecordRefusal>
    ensures { MatchResult result (OnlySet bytes.now) (OnlyUnset bytes.now) }
{
    let (records, rest) = bytes.as_chunks::<RECORD_LEN>();
    let len = records.len();
    if !rest.is_empty() || len == 0 || len > NODE_LIMIT {
        return Err(RecordRefusal::Size);
    }
    let mut nodes = [RuleNode::ANY; NODE_LIMIT];
    // By index, since the proof goes by the places that are written.
    for (number, record) in records.iter().enumerate() {
        nodes[number] = node_of(number, record).ok_or(RecordRefusal::Bad(number))?;
    }
    Ok(Rule { nodes, len })
}

impl Rule {
    /// Sets the rule from records of three bytes, in the order of their numbers.
    pub fn set_records(&mut self, bytes: &[u8]) -> Result<(), RecordRefusal>
        ensures { MatchResult result
            (λ _. OnlySet bytes.now self.new)
            (λ f. Unset bytes.now f self.old self.new) }
    {
        *self = rule_from(bytes)?;
        Ok(())
    }
}
