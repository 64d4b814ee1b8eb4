//! Rules from rule texts.
ghost use Rattle.std.specs.Prelude.{◌≡◌, ◌<◌, ◌≤◌, length, MatchResult};
ghost use Rattle.std.specs.List.{AllByRecursion};
ghost use Rattle.rules.specs.Parsing.{InText};
ghost use Rattle.rules.specs.Rule.{Rooted, Ordered};
ghost use Rattle.rules.specs.RuleNodes.{rule_nodes};
ghost use Rattle.rules.specs.RuleNodes.{plain_nodes};
ghost use Rattle.rules.specs.Limits.{node_limit};
ghost use Rattle.rules.specs.ReadText.{NamesIn, ReadInto, Unread, OnlyRefused};

use crate::node::RuleNode;
use crate::reader::parse;
use crate::refusal::TextRefusal;
use crate::rule::{NODE_LIMIT, Rule};
use crate::syntax::{Kind, ParsedNode};
use labels::kind::NameLabel;

impl From<ParsedNode> for RuleNode {
    ghost use Rattle.rules.specs.RuleNodes.{plain};

    ghost from_gives = { λ n r. r ≡ plain n };

    fn from(node: ParsedNode) -> RuleNode {
        RuleNode {
            parent: node.parent,
            edge: node.edge,
            any: node.test.kind == Kind::Star,
        }
    }
}

// The rule with these rule nodes.
fn rule_of(nodes: &[ParsedNode]) -> Rule
    requires some { 0 < length nodes.now }
    requires few { length nodes.now ≤ node_limit }
    requires rooted { Rooted (plain_nodes nodes.now) }
    requires ordered { Ordered (plain_nodes nodes.now) }
    ensures { rule_nodes result ≡ plain_nodes nodes.now }
{
    let mut made = [RuleNode::ANY; NODE_LIMIT];
    // By index, since the proof goes by the places that are written.
    for (i, node) in nodes.iter().enumerate() {
        made[i] = RuleNode::from(*node);
    }
    Rule {
        nodes: made,
        len: nodes.len(),
    }
}

// Writes the names of the named rule nodes into the list at their numbers.
fn write_names<N: NameLabel>(text: &[u8], nodes: &[ParsedNode], names: &mut [N])
    requires few { length nodes.now ≤ length names.old }
    requires in_text { AllByRecursion (InText text.now) nodes.now }
    ensures { NamesIn N.spelled text.now nodes.now names.old names.new }
{
    // By index, since the proof goes by the places that are written.
    for (i, node) in nodes.iter().enumerate() {
        let test = node.test;
        if test.kind == Kind::Name {
            let end = test.place + test.len;
            names[i] = N::from_bytes(&text[test.place..end]).unwrap();
        }
    }
}

// The rule of a rule text; the names of its named rule nodes go into `names` at their numbers.
fn read<N: NameLabel>(text: &[u8], names: &mut [N]) -> Result<Rule, TextRefusal>
    ensures { MatchResult result
        (λ rule. ReadInto N.eq N.spelled N.alike text.now rule names.old names.new)
        (λ f. OnlyRefused text.now (length names.old) f × (names.new ≡ names.old)) }
{
    if names.len() < NODE_LIMIT {
        return Err(TextRefusal::ShortList);
    }
    let parsed = parse(text)?;
    let nodes = parsed.as_slice();
    let rule = rule_of(nodes);
    write_names(text, nodes, names);
    Ok(rule)
}

impl Rule {
    /// Reads a rule text into the rule, and the names of its named rule nodes into `names` at their numbers.
    pub fn read_text<N: NameLabel>(
        &mut self,
        text: &[u8],
        names: &mut [N],
    ) -> Result<(), TextRefusal>
        ensures { MatchResult result
            (λ _. ReadInto N.eq N.spelled N.alike text.now self.new names.old names.new)
            (λ f. Unread text.now f self.old self.new names.old names.new) }
    {
        *self = read(text, names)?;
        Ok(())
    }
}
